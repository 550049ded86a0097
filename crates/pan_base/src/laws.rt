//! Laws of the definitions, on calls that do nothing.

ghost use Rattle.std.specs.Prelude.{◌≡◌, ℕ, ℤ, List, ◌+◌, ◌*◌, ◌%◌, ◌^◌, ◌≤◌, ◌<◌, ◌⊎◌, [], ◌++◌, length, take, drop};
ghost use Rattle.pan_base.specs.Bytes.{number_at, with_number, number_of_bytes, with_bytes_of, part, with_part};
ghost use Rattle.pan_base.specs.Events.{Event, IsPrefix, byte_count};
ghost use Rattle.pan_base.specs.Results.{immediate, r_result, i_result, sh_result, u_result, loads, l_result};
ghost use Rattle.pan_base.specs.Sinks.{SinkState, Took, TookFront};
ghost use Rattle.pan_base.specs.Words.{IsBytes, IsWord};
ghost use Rattle.pan_base.specs.declared.events.Size.{Size};
ghost use Rattle.pan_base.specs.declared.operators.IOp.{IOp};
ghost use Rattle.pan_base.specs.declared.operators.LOp.{LOp};
ghost use Rattle.pan_base.specs.declared.operators.ROp.{ROp};
ghost use Rattle.pan_base.specs.declared.operators.ShiftOp.{ShiftOp};
ghost use Rattle.pan_base.specs.declared.operators.UOp.{UOp};

/// A number that is written into a row of bytes is read there, modulo what so many bytes hold, and no number elsewhere
/// changes, whatever its size. The row stays as long, and bytes stay bytes. To read or write a number is to read or
/// write its bytes, one after another.
pub fn numbers_in_bytes()
    ensures number_read_back { (size : Size) (bytes : List ℕ) (at n : ℕ) → at + byte_count size ≤ length bytes
        → number_at size (with_number size bytes at n) at ≡ n % 2 ^ (8 * byte_count size) }
    ensures number_elsewhere { (size other : Size) (bytes : List ℕ) (at n from : ℕ) → at + byte_count size ≤ length bytes
        → (from + byte_count other ≤ at) ⊎ (at + byte_count size ≤ from)
        → number_at other (with_number size bytes at n) from ≡ number_at other bytes from }
    ensures low_bytes_alone { (size : Size) (bytes : List ℕ) (at n : ℕ)
        → with_number size bytes at (n % 2 ^ (8 * byte_count size)) ≡ with_number size bytes at n }
    ensures same_length { (size : Size) (bytes : List ℕ) (at n : ℕ) → at + byte_count size ≤ length bytes
        → length (with_number size bytes at n) ≡ length bytes }
    ensures stay_bytes { (size : Size) (bytes : List ℕ) (at n : ℕ) → IsBytes bytes → IsBytes (with_number size bytes at n) }
    ensures number_fits { (size : Size) (bytes : List ℕ) (at : ℕ) → IsBytes bytes
        → number_at size bytes at < 2 ^ (8 * byte_count size) }
    ensures read_by_bytes { (size : Size) (bytes : List ℕ) (at : ℕ)
        → number_at size bytes at ≡ number_of_bytes (byte_count size) bytes at }
    ensures written_by_bytes { (size : Size) (bytes : List ℕ) (at n : ℕ) → at + byte_count size ≤ length bytes
        → with_number size bytes at n ≡ with_bytes_of (byte_count size) bytes at n }
{}

/// Fronts and rests of rows of bytes are bytes, and so is one row after another.
pub fn rows_of_bytes()
    ensures front { (n : ℕ) (bytes : List ℕ) → IsBytes bytes → IsBytes (take n bytes) }
    ensures rest { (n : ℕ) (bytes : List ℕ) → IsBytes bytes → IsBytes (drop n bytes) }
    ensures joined { (first second : List ℕ) → IsBytes first → IsBytes second → IsBytes (first ++ second) }
{}

/// Bytes that are written into a row of bytes are read there, and those elsewhere stay as they were. The row stays as long,
/// and bytes stay bytes.
pub fn parts_of_bytes()
    ensures part_read_back { (bytes : List ℕ) (at : ℕ) (new : List ℕ) → at ≤ length bytes
        → part (with_part bytes at new) at (length new) ≡ new }
    ensures part_elsewhere { (bytes : List ℕ) (at : ℕ) (new : List ℕ) (from count : ℕ) → at + length new ≤ length bytes
        → (from + count ≤ at) ⊎ (at + length new ≤ from)
        → part (with_part bytes at new) from count ≡ part bytes from count }
    ensures same_length { (bytes : List ℕ) (at : ℕ) (new : List ℕ) → at + length new ≤ length bytes
        → length (with_part bytes at new) ≡ length bytes }
    ensures stay_bytes { (bytes : List ℕ) (at : ℕ) (new : List ℕ) → IsBytes bytes → IsBytes new
        → IsBytes (with_part bytes at new) }
    ensures part_is_bytes { (bytes : List ℕ) (at count : ℕ) → IsBytes bytes → IsBytes (part bytes at count) }
{}

/// What the instructions make of words is a word.
pub fn results_are_words()
    ensures of_registers { (op : ROp) (a b : ℕ) → IsWord a → IsWord b → IsWord (r_result op a b) }
    ensures of_immediate { (op : IOp) (a : ℕ) (imm : ℤ) → IsWord a → IsWord (immediate imm) → IsWord (i_result op a imm) }
    ensures of_shift { (op : ShiftOp) (a n : ℕ) → IsWord a → IsWord (sh_result op a n) }
    ensures of_upper { (op : UOp) (pc high : ℕ) → high < 2 ^ 20 → IsWord (u_result op pc high) }
    ensures of_load { (op : LOp) (n : ℕ) → n < 2 ^ (8 * byte_count (loads op)) → IsWord (l_result op n) }
{}

/// Each trace is a prefix of itself, and a prefix of a prefix is a prefix.
pub fn prefixes()
    ensures reflexive { (events : List Event) → IsPrefix events events }
    ensures transitive { (a b c : List Event) → IsPrefix a b → IsPrefix b c → IsPrefix a c }
{}

/// What a sink tells goes on by nothing where nothing is put, by one text after another, and by a front of a text that
/// follows others.
pub fn sinks_go_on()
    ensures nothing { (a : SinkState) → Took a a [] }
    ensures more { (a b c : SinkState) (first second : List ℕ) → Took a b first → Took b c second
        → Took a c (first ++ second) }
    ensures front { (a b c : SinkState) (first second rest all : List ℕ) → Took a b first → TookFront b c second
        → all ≡ first ++ (second ++ rest) → TookFront a c all }
{}
