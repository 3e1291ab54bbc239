//! The meaning of the constants, and of the bytes.

ghost use Rattle.std.specs.Prelude.{◌≡◌, ◌<◌, ◌^◌, ℕ, Some, IfSome};
ghost use Rattle.sense.specs.Conditions.{no_sense, parameter_list_length_error, invalid_opcode, lba_out_of_range, invalid_field_in_cdb, logical_unit_not_supported, invalid_field_in_parameter_list, saving_parameters_not_supported, invalid_message_error, write_protected};
ghost use Rattle.sense.specs.Format.{bytes_in, in_format};
ghost use Rattle.sense.specs.Reading.{read_sense};
ghost use Rattle.sense.specs.declared.Sense.{Sense as ASense};
ghost use Rattle.sense.specs.declared.SenseFormat.{SenseFormat as AFormat};

use crate::Sense;

/// Each constant of `Sense` is the condition of its name.
pub fn constants()
    ensures no_sense { Sense.NO_SENSE ≡ no_sense }
    ensures length { Sense.PARAMETER_LIST_LENGTH_ERROR ≡ parameter_list_length_error }
    ensures opcode { Sense.INVALID_OPCODE ≡ invalid_opcode }
    ensures range { Sense.LBA_OUT_OF_RANGE ≡ lba_out_of_range }
    ensures cdb { Sense.INVALID_FIELD_IN_CDB ≡ invalid_field_in_cdb }
    ensures unit { Sense.LOGICAL_UNIT_NOT_SUPPORTED ≡ logical_unit_not_supported }
    ensures list { Sense.INVALID_FIELD_IN_PARAMETER_LIST ≡ invalid_field_in_parameter_list }
    ensures saving { Sense.SAVING_PARAMETERS_NOT_SUPPORTED ≡ saving_parameters_not_supported }
    ensures message { Sense.INVALID_MESSAGE_ERROR ≡ invalid_message_error }
    ensures protected { Sense.WRITE_PROTECTED ≡ write_protected }
{}

/// Both formats say the same: the bytes of either read back as the sense data that they were made of.
pub fn formats_say_the_same()
    ensures { (format : AFormat) (s : ASense) → s.key < 16 → IfSome s.information (λ information. information < 2 ^ 32)
        → read_sense (bytes_in format s) ≡ Some (in_format format s) }
{}
