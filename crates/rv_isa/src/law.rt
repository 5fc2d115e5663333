ghost use Rattle.std.specs.Prelude.{◌≡◌, ℕ, ◌<◌, ◌^◌, Some};
ghost use Rattle.rv_isa.specs.declared.inst.Inst.{Inst};
ghost use Rattle.rv_isa.specs.Encoding.{word_of, inst_of, IsInst};
ghost use Rattle.rv_isa.specs.Machine.{Cpu, Machine, machine_step};
ghost use Rattle.rv_isa.specs.Progress.{GoesAhead, HasWords, StandsWithin, IsBounded};

/// The word of an instruction reads as that instruction, and what reads as an instruction is its word.
///
/// So `decode` undoes `encode`, and `encode` undoes `decode`.
pub fn inverse()
    ensures read_again { (i : Inst) → IsInst i → inst_of (word_of i) ≡ Some i }
    ensures spelt { (w : ℕ) (i : Inst) → w < 2 ^ 32 → inst_of w ≡ Some i → (word_of i ≡ w) × IsInst i }
{}

/// How far a thread of the machine gets: without a turn or a call it only goes ahead, so a segment ends.
pub fn progress()
    ensures ahead { (h : Machine) (c : Cpu) → GoesAhead c (machine_step h c) }
    ensures within { (h : Machine) (words : ℕ) (c : Cpu) → HasWords h words → StandsWithin words c (machine_step h c) }
    ensures bound { IsBounded }
{}
