//! What follows from the definitions, for those who stand on them.

ghost use Rattle.std.specs.Prelude.{◌≡◌, ◌↔◌, ◌⊎◌, List, ℕ, IsTrue, ◌&&◌, ◌==◌, ◌/◌};
ghost use Rattle.octets.specs.Bytes.{IsBytes};
ghost use Rattle.operation.specs.declared.fault.OpFault.{OpFault};
ghost use Rattle.operation.specs.declared.op.Op.{Op};
ghost use Rattle.operation.specs.declared.target.Target.{Target};
ghost use Rattle.operation.specs.Corrections.{IsCorrection, is_corrected, is_series, is_tag_for};
ghost use Rattle.operation.specs.Parts.{CorrectionParts};
ghost use Rattle.operation.specs.Reading.{IsOp, HasFault};
ghost use Rattle.operation.specs.Spelling.{spelling};

/// Unequal operations have unequal spellings.
pub fn spellings_tell_operations_apart()
    ensures { (a b : Op) → IsOp a → IsOp b → spelling a ≡ spelling b → a ≡ b }
{}

/// A patient is corrected in the attributes of group 0010 that can be corrected, and in no other.
pub fn a_patient_is_corrected_in_its_group_alone()
    ensures { (key : List ℕ) (tag : ℕ) → is_tag_for (Target.Patient key) tag
        ≡ (is_corrected tag && tag / 65536 == 0x0010) }
{}

/// A correction is one of a series where it is one of (0008,103E) Series Description.
pub fn a_series_is_corrected_by_its_description_alone()
    ensures { (k : CorrectionParts) → IsCorrection k
        → (k.tag ≡ 0x0008_103e) ↔ IsTrue (is_series k.target) }
{}

/// A text spells an operation or has a fault, and never two of these.
pub fn a_text_has_one_outcome()
    ensures spelled { (op : Op) (f : OpFault) → IsOp op → HasFault (spelling op) f → ⊥ }
    ensures fault { (text : List ℕ) (f g : OpFault) → HasFault text f → HasFault text g → f ≡ g }
{}

/// Every text of bytes spells an operation, or has a fault.
pub fn each_text_has_an_outcome()
    ensures { (text : List ℕ) → IsBytes text →
        ((op : Op) × IsOp op × (text ≡ spelling op)) ⊎ ((f : OpFault) × HasFault text f) }
{}
