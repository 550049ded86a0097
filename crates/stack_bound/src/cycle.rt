//! Cycles as they are kept.

ghost use Rattle.std.specs.Prelude.{◌≡◌, ◌<◌, ◌≤◌, ℕ, length, slice_index};
ghost use Rattle.stack_bound.specs.Paths.{BeginsLeast};
ghost use Rattle.stack_bound.specs.Walks.{IsTurned};

use pan_base::List;

/// The place of the least of some numbers.
fn place_of_least(numbers: &[u32]) -> usize
    requires { 0 < length numbers.now }
    ensures within { result < length numbers.now }
    ensures least { (k : ℕ) → k < length numbers.now → slice_index numbers.now result ≤ slice_index numbers.now k }
{
    let mut least = 0;
    for (place, number) in numbers.iter().enumerate() {
        if *number < numbers[least] {
            least = place;
        }
    }
    least
}

/// The same cycle, beginning with its least function.
pub fn from_least(mut cycle: Vec<u32>) -> List<u32>
    requires { 0 < length cycle.items }
    ensures turned { IsTurned cycle.items result }
    ensures least { BeginsLeast result }
{
    let least = place_of_least(cycle.as_slice());
    cycle.rotate_left(least);
    List::from_vec(cycle)
}
