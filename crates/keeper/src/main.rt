// The script program (document 01): answers the script on standard input, or says how it is used.
#![tactic(auto)]

use program::{has_arguments, write_out};
use std::io::Write;

// As rush's but for the text: one for both would be this one call.
fn usage<W: Write>(output: &mut W) {
    let _ = write_out(
        output,
        b"usage: keeper <script >answers\n\nReads a script from standard input, a call to a line:\n  format,LOGS,SLOTS,KEEPER,RESERVE,..    a reserve for each log\n  append,LOG,VALUE\n  advance,LOG,POSITION,DIGEST,VALUE\n  truncate,LOG,POSITION\n  lookup,LOG,POSITION\n  end,LOG\nWrites a heading and a line for each call to standard output, after each read:\n  line,answer,kind,position,reference,value,low,high\nAnswer 0 is done, others are refusals, 15 for a line that is no call.\n",
    );
}

// It takes no argument.
fn main(rt: HostRuntime) {
    let mut output = rt.stdout();
    if has_arguments(&rt) {
        usage(&mut output);
        return;
    }
    script_run::run(&mut rt.stdin(), &mut output, &mut rt.stderr());
}
