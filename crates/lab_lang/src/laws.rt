//! Laws of the meaning, on a call that does nothing.

ghost use Rattle.std.specs.Prelude.{ℕ, List};
ghost use Rattle.pan_base.specs.Events.{Replied};
ghost use Rattle.pan_stage.specs.declared.program.Program.{Program};
ghost use Rattle.riscv_isa.specs.Running.{IsSteady};
ghost use Rattle.lab_lang.specs.Meaning.{behaviour};
ghost use Rattle.lab_lang.specs.declared.syntax.LabFun.{LabFun};
ghost use Rattle.lab_lang.specs.declared.syntax.Line.{Line};

/// With more steps a run of lines goes on, and stays as it is where it has ended. It does nothing.
pub fn lines_go_on()
    ensures { (p : Program LabFun) (lines : List Line) (layout : List (ℕ × ℕ)) (size : ℕ) (m : List ℕ) (r : List Replied) →
        IsSteady (behaviour p lines layout size m r) }
{}
