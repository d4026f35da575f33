// Which modes of a module are reached: mode 0, and what a reached mode lists, round by round.
#![tactic(auto)]

ghost use Rattle.std.specs.Prelude.{◌≡◌, List, ℕ, ◌<◌, ◌≤◌};
ghost use Rattle.layers.specs.Layer.{Tells};
ghost use Rattle.reach.specs.Names.{in_round, Names, NamesReached};

use layers::Shape;
use std::array;

// Whether the row of one round more names the mode t: the row does, or a mode that it names lists t.
fn is_reached(listed: &[bool; 64], modes: usize, row: &[bool; 8], t: usize) -> bool
    requires { (modes ≤ 8) × (t < 8) }
    ensures { result ≡ in_round listed.now modes row.now t }
{
    row[t] || (0..modes).any(|k| row[k] && listed[8 * k + t])
}

// The row of one round more.
fn round(listed: &[bool; 64], modes: usize, row: &[bool; 8]) -> [bool; 8]
    requires { modes ≤ 8 }
    ensures { Names modes (in_round listed.now modes row.now) result }
{
    array::from_fn(|t| t < modes && is_reached(listed, modes, row, t))
}

/// Which modes are reached, by as many rounds as there are modes.
pub fn reached_modes(shape: Shape) -> [bool; 8]
    requires { (numbers : List ℕ) × Tells shape numbers }
    ensures { NamesReached shape result }
{
    let mut row = [false; 8];
    row[0] = true;
    for _ in 0..shape.modes {
        row = round(&shape.listed, shape.modes, &row);
    }
    row
}
