//! Opcodes of the profile, and those outside it.

use super::none_is;
use cdb::{CDB_BYTES, Command, Profile, decode};

/// Each opcode of the profile and the index of its control byte.
static PROFILE: [(u8, usize); 20] = [
    (0x00, 5),
    (0x03, 5),
    (0x08, 5),
    (0x0a, 5),
    (0x12, 5),
    (0x25, 9),
    (0x28, 9),
    (0x2a, 9),
    (0x35, 9),
    (0x41, 9),
    (0x42, 9),
    (0x88, 15),
    (0x89, 15),
    (0x8a, 15),
    (0x91, 15),
    (0x93, 15),
    (0x9e, 15),
    (0xa0, 11),
    (0xa8, 11),
    (0xaa, 11),
];

/// Returns the index of an opcode's control byte, where it is of the profile.
fn control_of(opcode: u8) -> Option<usize> {
    for (known, control) in &PROFILE {
        if *known == opcode {
            return Some(*control);
        }
    }
    None
}

/// Returns true if an opcode of the profile is known, and refused with NACA, and another is unknown.
fn is_known_as_it_should(opcode: u8) -> bool {
    let mut cdb = [0; CDB_BYTES];
    cdb[0] = opcode;
    let is_unknown = decode(Profile::Narrow, &cdb) == Command::Unknown;
    let Some(control) = control_of(opcode) else {
        return is_unknown;
    };
    if is_unknown || control >= CDB_BYTES {
        return false;
    }
    cdb[control] = 0x04;
    decode(Profile::Narrow, &cdb) == Command::Bad { opcode }
}

/// Returns the first opcode of which that isn't so.
fn first_wrong() -> Option<usize> {
    for opcode in 0..=u8::MAX {
        if !is_known_as_it_should(opcode) {
            return Some(usize::from(opcode));
        }
    }
    None
}

#[test]
fn opcodes_of_the_profile(rt: HostRuntime) {
    none_is(&rt, first_wrong());
}
