//! Laws of words and instructions: encoding and decoding undo each other, and decoding is the table. Laws of the machine
//! and of runs.

ghost use Rattle.std.specs.Prelude.{◌≡◌, ◌≢◌, ◌⊎◌, ◌↔◌, ℕ, suc, ◌+◌, ◌-◌, ◌*◌, ◌%◌, ◌^◌, ◌<◌, ◌≤◌, Some, option_map, List, [], ◌∷◌, length, true, false};
ghost use Rattle.pan_base.specs.declared.events.Size.{Size};
ghost use Rattle.pan_base.specs.declared.operators.IOp.TheVariants.{Addi};
ghost use Rattle.pan_base.specs.declared.operators.UOp.TheVariants.{Auipc};
ghost use Rattle.pan_base.specs.Bytes.{number_at, with_number};
ghost use Rattle.pan_base.specs.Events.{Asked, Replied, Ending, Stopped, Asks, before, only, fits, byte_count};
ghost use Rattle.riscv_isa.specs.declared.instr.Instr.{Instr};
ghost use Rattle.riscv_isa.specs.declared.place.Place.TheVariants.{In, Window};
ghost use Rattle.riscv_isa.specs.declared.place.Region.{Region};
ghost use Rattle.riscv_isa.specs.Decoded.{decoded};
ghost use Rattle.riscv_isa.specs.Held.{IsAt, AreAt};
ghost use Rattle.riscv_isa.specs.Image.{ImageParts, IsLawfulImage};
ghost use Rattle.pan_base.specs.Lawful.{IsLawfulMemory, IsLawfulStack};
ghost use Rattle.riscv_isa.specs.Machine.{booted, machine};
ghost use Rattle.riscv_isa.specs.Regions.{Memory, AreApart, IsInside, begin, bytes_of, with_bytes, place_of};
ghost use Rattle.riscv_isa.specs.Running.{Config, Waits, Over, run, Leads, IsSteady};
ghost use Rattle.riscv_isa.specs.Sound.{IsSound, IsFixed, GoesOnIn};
ghost use Rattle.riscv_isa.specs.Step.{State, reg, with_reg, act, step};
ghost use Rattle.riscv_isa.specs.Table.{Instruction, InRange};
ghost use Rattle.riscv_isa.specs.Ways.{IsNear, way, high_of, low_of, halfway};

use crate::decoding::decode;
use crate::encoding::encode;
use crate::instr::Instr;

/// What is encoded is decoded to the same instruction.
pub fn read_written(instr: Instr) -> Option<Instr>
    requires { InRange instr }
    ensures { result ≡ Some instr }
{
    decode(encode(instr))
}

/// What is decoded is encoded to the same word. `None` where the word stands for no instruction.
pub fn write_read(word: u32) -> Option<u32>
    ensures { result ≡ option_map (λ _. word) (decoded word) }
{
    match decode(word) {
        Some(instr) => Some(encode(instr)),
        None => None,
    }
}

/// A word that stands for an instruction is decoded to it, and what a word of 32 bits is decoded to is what it stands for,
/// with its fields in range. It does nothing.
pub fn decoded_is_the_table()
    ensures reads { (w : ℕ) (i : Instr) → Instruction w i → decoded w ≡ Some i }
    ensures fits { (w : ℕ) (i : Instr) → w < 2 ^ 32 → decoded w ≡ Some i → Instruction w i }
    ensures range { (w : ℕ) (i : Instr) → w < 2 ^ 32 → decoded w ≡ Some i → InRange i }
{}

/// Runs of any states that take steps, ask and are resumed. With more steps a run goes on, and stays as it is where it has
/// ended; silent steps are taken one after another; and a step that asks is an event where a fitting reply is left, or else
/// ends the run. It does nothing.
pub fn runs_go_on<P, S>()
    ensures steady { (asks : P → S → Asked) (resume : P → S → Replied → S) (next : S → Config P S) (s : S) (replies : List Replied) →
        IsSteady (λ k. run asks resume next k s replies) }
    ensures composed { (next : S → Config P S) (n m : ℕ) (s t u : S) → Leads next n s t → Leads next m t u → Leads next (n + m) s u }
    ensures silent { (asks : P → S → Asked) (resume : P → S → Replied → S) (next : S → Config P S) (n k : ℕ) (s t : S) (replies : List Replied) →
        Leads next n s t → run asks resume next (n + k) s replies ≡ run asks resume next k t replies }
    ensures answered { (asks : P → S → Asked) (resume : P → S → Replied → S) (next : S → Config P S) (k : ℕ) (p : P) (s t : S) (r : Replied) (replies : List Replied) →
        next s ≡ Waits p t → fits (asks p t) r ≡ true →
        run asks resume next (suc k) s (r ∷ replies) ≡ before (asks p t) r (run asks resume next k (resume p t r) replies) }
    ensures stopped { (asks : P → S → Asked) (resume : P → S → Replied → S) (next : S → Config P S) (k : ℕ) (p : P) (s t : S) (r : Replied) (replies : List Replied) →
        next s ≡ Waits p t → fits (asks p t) r ≡ false → run asks resume next (suc k) s (r ∷ replies) ≡ only (Stopped (asks p t)) }
    ensures unanswered { (asks : P → S → Asked) (resume : P → S → Replied → S) (next : S → Config P S) (k : ℕ) (p : P) (s t : S) →
        next s ≡ Waits p t → run asks resume next (suc k) s [] ≡ only (Asks (asks p t)) }
    ensures over { (asks : P → S → Asked) (resume : P → S → Replied → S) (next : S → Config P S) (k : ℕ) (s : S) (e : Ending) (replies : List Replied) →
        next s ≡ Over e → run asks resume next (suc k) s replies ≡ only e }
{}

/// With more steps a run of the machine goes on, and stays as it is where it has ended. It does nothing.
pub fn machine_goes_on()
    ensures { (parts : ImageParts) (memory : List ℕ) (stack : ℕ) (replies : List Replied) →
        IsSteady (machine parts memory stack replies) }
{}

/// A machine is sound at its start, and stays so with each step and each reply that fits. No step changes the code, the
/// names or how large the regions of data memory are. It does nothing.
pub fn states_stay_sound()
    ensures booted { (parts : ImageParts) (memory : List ℕ) (stack : ℕ) →
        IsLawfulImage parts → IsLawfulMemory memory → IsLawfulStack stack → IsSound (booted parts memory stack) }
    ensures step { (s : State) → IsSound s → GoesOnIn IsSound (step s) }
    ensures instruction { (i : Instr) (s : State) → IsSound s → s.pc + 4 < 2 ^ 64 → InRange i → GoesOnIn IsSound (act i s) }
    ensures silent { (n : ℕ) (s t : State) → IsSound s → Leads step n s t → IsSound t }
    ensures fixed { (s : State) → GoesOnIn (IsFixed s) (step s) }
    ensures fixed_instruction { (i : Instr) (s : State) → GoesOnIn (IsFixed s) (act i s) }
    ensures fixed_silent { (n : ℕ) (s t : State) → Leads step n s t → IsFixed s t }
{}

/// A register holds what was written to it last, and register 0 always holds 0. It does nothing.
pub fn registers_hold()
    ensures same { (s : State) (i n : ℕ) → i ≢ 0 → i < length s.registers → reg (with_reg s i n) i ≡ n }
    ensures other { (s : State) (i j n : ℕ) → i ≢ j → reg (with_reg s i n) j ≡ reg s j }
    ensures zero { (s : State) → reg s 0 ≡ 0 }
    ensures dropped { (s : State) (n : ℕ) → with_reg s 0 n ≡ s }
{}

/// An access goes to a region, or to the shared window, exactly where its address is a multiple of its size and it lies
/// wholly there. A number that is stored in a region is read back, modulo what so many bytes hold, and no other number of
/// the regions changes. It does nothing.
pub fn accesses_find_regions()
    ensures region { (r : Region) (d : Memory) (addr size : ℕ) → AreApart d → 0 < size →
        (place_of d addr size ≡ In r (addr - begin r)) ↔ ((addr % size ≡ 0) × IsInside r d addr size) }
    ensures window { (d : Memory) (addr size : ℕ) → AreApart d → 0 < size →
        (place_of d addr size ≡ Window) ↔ ((addr % size ≡ 0) × (0x40000000 ≤ addr) × (addr + size ≤ 0x80000000)) }
    ensures read_back { (r : Region) (size : Size) (at n : ℕ) (d : Memory) → at + byte_count size ≤ length (bytes_of r d) →
        number_at size (bytes_of r (with_bytes r (with_number size (bytes_of r d) at n) d)) at ≡ n % 2 ^ (8 * byte_count size) }
    ensures read_beside { (r : Region) (size other : Size) (at n from : ℕ) (d : Memory) → at + byte_count size ≤ length (bytes_of r d) →
        (from + byte_count other ≤ at) ⊎ (at + byte_count size ≤ from) →
        number_at other (bytes_of r (with_bytes r (with_number size (bytes_of r d) at n) d)) from ≡ number_at other (bytes_of r d) from }
    ensures read_elsewhere { (r q : Region) (bytes : List ℕ) (d : Memory) → r ≢ q → bytes_of q (with_bytes r bytes d) ≡ bytes_of q d }
{}

/// From each address of code an AUIPC and the instruction after it reach each other address of code: a JALR jumps there
/// and links, an ADDI makes the address. A JAL reaches what its immediate says. It does nothing.
pub fn ways_reach()
    ensures far { (s : State) (rd by to : ℕ) → AreAt (Instr.U Auipc by (high_of s.pc to) ∷ Instr.Jalr rd by (low_of s.pc to) ∷ []) s.code s.pc →
        by ≢ 0 → by < length s.registers → IsNear s.pc → IsNear to → to % 4 ≡ 0 →
        Leads step 2 s (record (with_reg (with_reg s by (halfway s.pc to)) rd (s.pc + 8)) { pc = to }) }
    ensures address { (s : State) (rd to : ℕ) → AreAt (Instr.U Auipc rd (high_of s.pc to) ∷ Instr.I Addi rd rd (low_of s.pc to) ∷ []) s.code s.pc →
        rd ≢ 0 → rd < length s.registers → IsNear s.pc → IsNear to →
        Leads step 2 s (record (with_reg (with_reg s rd (halfway s.pc to)) rd to) { pc = s.pc + 8 }) }
    ensures near { (s : State) (rd to : ℕ) → IsAt (Instr.Jal rd (way s.pc to)) s.code s.pc → IsNear s.pc → IsNear to → to % 4 ≡ 0 →
        Leads step 1 s (record (with_reg s rd (s.pc + 4)) { pc = to }) }
{}
