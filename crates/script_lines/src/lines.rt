// The columns of an answer.
ghost use Rattle.std.specs.Prelude.{◌≡◌};
ghost use Rattle.script.specs.Script.{cells_of};

use line::Cell;
use script::Answer;

// Those of an answer to a line of this number.
pub fn cells(line: u64, answer: Answer) -> [Cell; 8]
    ensures { result ≡ cells_of line answer }
{
    let n = Cell::Number(line);
    let no = Cell::Dash;
    match answer {
        Answer::Plain(k) => [n, Cell::Number(k), no, no, no, no, no, no],
        Answer::Bounded { number, low, high } => [
            n,
            Cell::Number(number),
            no,
            no,
            no,
            no,
            Cell::Number(low),
            Cell::Number(high),
        ],
        Answer::Attested {
            kind,
            position,
            reference,
            value,
            low,
            high,
        } => [
            n,
            Cell::Number(0),
            Cell::Letter(kind),
            Cell::Number(position),
            Cell::Number(reference),
            Cell::Number(value),
            Cell::Number(low),
            Cell::Number(high),
        ],
    }
}
