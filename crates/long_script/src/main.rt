// A script that takes many reads, as the script program runs it: lines across the ends of reads, one longer than a read, and a last
// line without its newline.
#![tactic(auto)]

fn main(rt: HostRuntime) {
    script_run::run(&mut rt.stdin(), &mut rt.stdout(), &mut rt.stderr());
}
