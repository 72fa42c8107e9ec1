// What an input asks for.
ghost use Rattle.std.specs.Prelude.{◌≡◌};
ghost use Rattle.workload.specs.Asked.{asked_by, asked_of};

use crate::Script;
use refusal::Refusal;

// So many lines from a seed.
fn asked_by(seed: u64, count: u64) -> Result<Script, Refusal>
    ensures { result ≡ asked_by seed count }
{
    if count < 1 || 10000 < count {
        return Err(Refusal::Line);
    }
    if seed == 0 {
        return Err(Refusal::Seed);
    }
    Ok(Script { seed, count })
}

// What an input asks for: 202 bytes of it are enough, since a line has at most 200 and its newline.
pub fn ask(text: &[u8]) -> Result<Script, Refusal>
    ensures { result ≡ asked_of text.now }
{
    if 201 < text.len() {
        return Err(Refusal::Line);
    }
    let e = line_fields::find(text, b'\n');
    if e + 1 < text.len() || 200 < e {
        return Err(Refusal::Line);
    }
    let mut v = [0u64; 19];
    let Some(2) = line_fields::numbers(&text[..e], 0, &mut v) else {
        return Err(Refusal::Line);
    };
    asked_by(v[0], v[1])
}
