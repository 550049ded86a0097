//! Laws of the bytes of instructions, on a call that does nothing.

ghost use Rattle.std.specs.Prelude.{◌≡◌, ℕ, ◌+◌, ◌*◌, List, ◌++◌, length};
ghost use Rattle.pan_base.specs.Words.{IsBytes};
ghost use Rattle.riscv_isa.specs.Held.{IsAt, AreAt, Spells};
ghost use Rattle.riscv_isa.specs.Step.{State, step, act};
ghost use Rattle.riscv_isa.specs.declared.instr.Instr.{Instr};

/// What spells instructions is bytes, four for each. Code holds the instructions that it spells, and the machine acts the
/// instruction that its code holds where it stands.
pub fn spelled_code()
    ensures long { (instrs : List Instr) (bytes : List ℕ) → Spells bytes instrs → length bytes ≡ 4 * length instrs }
    ensures bytes { (instrs : List Instr) (bytes : List ℕ) → Spells bytes instrs → IsBytes bytes }
    ensures held { (instrs : List Instr) (code front bytes : List ℕ) (at : ℕ)
        → Spells bytes instrs → code ≡ front ++ bytes → at ≡ 0x100000000 + length front → AreAt instrs code at }
    ensures acted { (s : State) (instr : Instr) → IsAt instr s.code s.pc → step s ≡ act instr s }
{}
