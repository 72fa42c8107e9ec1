// The digest of an entry.
#![tactic(auto)]

ghost use Rattle.std.specs.Prelude.{◌≡◌, ◌+◌, ◌^◌, ◌≤◌, ◌<◌, length};
ghost use Rattle.sha256_digest.specs.Absorbed.{absorbed};
ghost use Rattle.sha256_running.specs.Running.{state_of};
ghost use Rattle.entry.specs.Digest.{entry_digest};

use refusal::Hashed;
use sha256_running::Running;

// A running digest that is lent takes in a part. The struct is copied, and what `absorb` makes of it is stored.
fn feed(state: &mut Running, part: &[u8])
    requires { (state.old.count + length part.now < 2 ^ 64) × (state.old.blocks ≤ state.old.count) }
    ensures { state_of state.new ≡ absorbed (state_of state.old) part.now }
{
    let before = *state;
    *state = before.absorb(part);
}

// The digest of an entry. Document 01: "The running digest is fed position, value and previous digest in turn." The state is lent three
// times; the contract speaks of a number and arrays alone, so no caller's proof is a walk. The parts have 32 bytes by their type: the
// compiler knows their lengths, and what each feeding copies comes down to a few moves. The blocks are those that `finish` reports: of
// 72 bytes they are 2. Kept out of append and advance: put there, a refused call would make room for the state too.
#[inline(never)]
pub fn entry_digest(position: u64, value: &[u8; 32], previous: &[u8; 32]) -> Hashed<[u8; 32]>
    ensures { (result.value ≡ entry_digest position value.now previous.now) × (result.blocks ≡ 2) }
{
    let mut state = Running::new();
    feed(&mut state, &position.to_be_bytes());
    feed(&mut state, value);
    feed(&mut state, previous);
    state.finish()
}
