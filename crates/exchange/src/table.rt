// Tables of words, of which an exchange uses a part.
ghost use Rattle.std.specs.Prelude.{◌≡◌, ℕ, ◌≤◌, length, replicate, nat_le, if◌then◌else◌, Some, None, Ok, Err};
ghost use Rattle.curve.specs.declared.refusal.Refusal.TheVariants.{Length, Placed, Seat, Seats};
ghost use Rattle.curve.specs.Curve.{seats_wrong};
ghost use Rattle.exchange.specs.Sheet.{seat, outcome};
ghost use Rattle.exchange.specs.Tables.{held, empties};

use curve::refusal::Refusal;
use curve::test_seats;
use ring::Ring;

// Refuses what is not one of n seats.
pub(crate) fn test_seat(n: usize, k: usize) -> Result<(), Refusal>
    ensures { result ≡ (if seat n k then Ok tt else Err Seat) }
{
    if !(1..=n).contains(&k) {
        return Err(Refusal::Seat);
    }
    Ok(())
}

// How many squares are empty.
pub(crate) fn count_empty<R: Copy>(squares: &[Option<R>]) -> usize
    ensures sum { result ≡ empties squares.now }
    ensures few { result ≤ length squares.now }
{
    squares.iter().map(|o| usize::from(o.is_none())).sum()
}

// Writes a word into squares, all of which are to be empty.
pub(crate) fn place<R: Copy>(squares: &mut [Option<R>], word: R) -> Result<(), Refusal>
    ensures { (result, squares.new) ≡ outcome (if held squares.old then Some Placed else None) squares.old (replicate (length squares.old) (Some word)) }
{
    if squares.iter().any(Option::is_some) {
        return Err(Refusal::Placed);
    }
    // Not `fill`, which asks that a clone of the word cannot fail.
    for square in squares {
        *square = Some(word);
    }
    Ok(())
}

// Empties all places.
pub(crate) fn clear<R: Copy>(table: &mut [Option<R>])
    ensures { table.new ≡ replicate (length table.old) None }
{
    table.fill(None);
}

// Empties a table for n seats, which need so many of its places.
pub(crate) fn clear_for<R: Ring>(
    table: &mut [Option<R>],
    n: usize,
    need: usize,
) -> Result<(), Refusal>
    ensures { (result, table.new) ≡ outcome (if seats_wrong R.Ring.points.count n then Some Seats else if nat_le need (length table.old) then None else Some Length) table.old (replicate (length table.old) None) }
{
    test_seats::<R>(n)?;
    if need > table.len() {
        return Err(Refusal::Length);
    }
    clear(table);
    Ok(())
}
