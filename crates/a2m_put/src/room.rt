// Whether a log may take a slot: what append and advance ask before they hash.
ghost use Rattle.std.specs.Prelude.{◌≡◌};
ghost use Rattle.a2m.specs.Opened.{room_of};

use a2m::View;
use refusal::Refusal;

// Refusals 5 and 16. A log below its reserve finds more free slots than the other logs lack, so one comparison decides on 16.
#[tactic(auto, unfolding(a2m::specs::Opened::room_of))]
pub fn room(view: View) -> Result<(), Refusal>
    ensures { result ≡ room_of view }
{
    if view.free == 0 {
        return Err(Refusal::Full);
    }
    if view.count <= view.others {
        return Err(Refusal::Promised);
    }
    Ok(())
}
