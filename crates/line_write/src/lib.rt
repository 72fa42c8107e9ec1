// An answer line written, on slices.
#![tactic(auto)]

ghost use Rattle.std.specs.Prelude.{◌≡◌, [], ◌∷◌, ◌++◌, ◌+◌, ◌≤◌, length};
ghost use Rattle.octets.specs.Octets.{splice};
ghost use Rattle.line.specs.Answer.{cell_text, line_text};

use line::Cell;

// A cell and its mark, and the place after them. Buffer and place are handed on side by side, as everywhere that text is written into a
// lent buffer: in a struct of the two, each contract would say the same of its two fields.
fn put_cell(out: &mut [u8], at: usize, cell: Cell, mark: u8) -> usize
    requires { at + length (cell_text cell ++ (mark ∷ [])) ≤ length out.old }
    ensures value { result ≡ at + length (cell_text cell ++ (mark ∷ [])) }
    ensures out_after { out.new ≡ splice out.old at (cell_text cell ++ (mark ∷ [])) }
{
    let end = match cell {
        Cell::Dash => {
            out[at] = b'-';
            at + 1
        }
        Cell::Letter(b) => {
            out[at] = b;
            at + 1
        }
        Cell::Number(n) => decimal::put(out, at, n),
    };
    out[end] = mark;
    end + 1
}

// A line of eight cells, and the place after it. No such line is longer than 168 bytes.
pub fn render(out: &mut [u8], at: usize, cells: [Cell; 8]) -> usize
    requires { at + 168 ≤ length out.old }
    ensures value { result ≡ at + length (line_text cells) }
    ensures out_after { out.new ≡ splice out.old at (line_text cells) }
{
    let mut to = at;
    for &cell in &cells[..7] {
        to = put_cell(out, to, cell, b',');
    }
    put_cell(out, to, cells[7], b'\n')
}
