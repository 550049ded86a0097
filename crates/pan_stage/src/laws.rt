//! Laws of the definitions, on a call that does nothing.

ghost use Rattle.std.specs.Prelude.{◌≡◌, ℕ, ◌+◌, ◌-◌, ◌*◌, ◌%◌, ◌^◌, ◌≤◌, ◌<◌, ◌⊎◌, List, length, slice_index, Some};
ghost use Rattle.pan_base.specs.declared.events.Size.{Size};
ghost use Rattle.pan_base.specs.declared.events.Size.TheVariants.{B1, B8};
ghost use Rattle.pan_base.specs.Events.{byte_count};
ghost use Rattle.pan_base.specs.Words.{IsBytes, base_address};
ghost use Rattle.pan_control.specs.Memory as local_memory;
ghost use Rattle.pan_stage.specs.Data.{globals_address, words_bytes, read, write, read_bytes, write_bytes};

/// What is written to data memory is read at the same address, and nothing else changes: not in the same row of bytes, not
/// in the other one. Words and bytes of local memory are what the source has. Where the globals end below local memory, to
/// read or write a number is to read or write its bytes, one after another, and each global word begins as it is given.
pub fn data_memory()
    ensures read_back { (size : Size) (globals local : List ℕ) (addr n : ℕ) (d : List ℕ × List ℕ)
        → write size globals local addr n ≡ Some d → read size d.0 d.1 addr ≡ Some (n % 2 ^ (8 * byte_count size)) }
    ensures read_elsewhere { (size : Size) (globals local : List ℕ) (addr n : ℕ) (d : List ℕ × List ℕ)
        → write size globals local addr n ≡ Some d → (other : Size) (from : ℕ)
        → (from + byte_count other ≤ addr) ⊎ (addr + byte_count size ≤ from)
        → read other d.0 d.1 from ≡ read other globals local from }
    ensures same_lengths { (size : Size) (globals local : List ℕ) (addr n : ℕ) (d : List ℕ × List ℕ)
        → write size globals local addr n ≡ Some d → (length d.0 ≡ length globals) × (length d.1 ≡ length local) }
    ensures stay_bytes { (size : Size) (globals local : List ℕ) (addr n : ℕ) (d : List ℕ × List ℕ)
        → write size globals local addr n ≡ Some d → IsBytes globals → IsBytes local → IsBytes d.0 × IsBytes d.1 }
    ensures word_read { (globals local : List ℕ) (addr n : ℕ)
        → local_memory.word_at local addr ≡ Some n → read B8 globals local addr ≡ Some n }
    ensures word_written { (globals local after : List ℕ) (addr n : ℕ)
        → local_memory.with_word local addr n ≡ Some after → write B8 globals local addr n ≡ Some (globals, after) }
    ensures byte_read { (globals local : List ℕ) (addr n : ℕ)
        → local_memory.byte_at local addr ≡ Some n → read B1 globals local addr ≡ Some n }
    ensures byte_written { (globals local after : List ℕ) (addr n : ℕ) → n < 256
        → local_memory.with_byte local addr n ≡ Some after → write B1 globals local addr n ≡ Some (globals, after) }
    ensures read_by_bytes { (size : Size) (globals local : List ℕ) (addr n : ℕ)
        → length globals ≤ base_address - globals_address
        → read size globals local addr ≡ Some n → read_bytes (byte_count size) globals local addr ≡ Some n }
    ensures write_by_bytes { (size : Size) (globals local : List ℕ) (addr n : ℕ) (d : List ℕ × List ℕ)
        → length globals ≤ base_address - globals_address
        → write size globals local addr n ≡ Some d → write_bytes (byte_count size) globals local addr n ≡ Some d }
    ensures first_globals { (words local : List ℕ) (i : ℕ) → 8 * length words ≤ base_address - globals_address
        → i < length words → slice_index words i < 2 ^ 64
        → read B8 (words_bytes words) local (globals_address + 8 * i) ≡ Some (slice_index words i) }
{}
