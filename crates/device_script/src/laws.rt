//! Laws of rules, on calls that do nothing.

ghost use Rattle.std.specs.Prelude.{◌≡◌, ℕ, ◌+◌, ◌*◌, ◌%◌, ◌^◌, List};
ghost use Rattle.pan_base.specs.declared.events.Size.{Size};
ghost use Rattle.pan_base.specs.Events.{Asked, Value, byte_count};
ghost use Rattle.pan_port.specs.Device.{Given, Gave, Silent};
ghost use Rattle.device_script.specs.declared.rules.Rule.{Rule};
ghost use Rattle.device_script.specs.declared.rules.Rule.TheVariants as rule;
ghost use Rattle.device_script.specs.Rules.{answer_load, step};

/// A silent device has the rules that it had.
pub fn silence_changes_nothing()
    ensures { (rules : List Rule) (q : Asked) → (step rules q).0 ≡ Silent → (step rules q).1 ≡ rules }
{}

/// A counter gives V + k · D after any k loads, in the bits of its access, though it keeps k modulo 2^64.
pub fn counters_count_on()
    ensures given { (size : Size) (addr first step k : ℕ)
        → (answer_load (rule.Counter size addr first step (k % 2 ^ 64))).0 ≡ Gave (Value ((first + k * step) % 2 ^ (8 * byte_count size))) }
    ensures kept { (size : Size) (addr first step k : ℕ)
        → (answer_load (rule.Counter size addr first step (k % 2 ^ 64))).1 ≡ rule.Counter size addr first step ((k + 1) % 2 ^ 64) }
{}
