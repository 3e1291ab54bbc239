//! The data of READ DEFECT DATA (SBC-3 §5.17, §5.18).

ghost use Rattle.std.specs.Prelude.{◌≡◌, ◌≤◌, nat_lt, length, take, IfOk, OnErr, IsTrue};
ghost use Rattle.command_model.specs.Defects.{defect_data, format_code, lists_told};

use crate::data::cut;
use cdb::{DefectForm, DefectFormat, DefectRequest};
use std::alloc::{AllocError, Global};

/// Returns an empty list of defects, cut to the allocation length: a header alone, whose length is 0.
pub(crate) fn defect_data(alloc: Global, request: &DefectRequest) -> Result<Vec<u8>, AllocError>
    ensures data { IfOk result (λ bytes. bytes.items ≡ take request.now.allocation (defect_data request.now)) }
    ensures want { OnErr result (IsTrue (nat_lt 0 request.now.allocation)) }
{
    let told = lists_told(request);
    match request.form {
        DefectForm::Ten => cut(alloc, &[0, told, 0, 0], request.allocation),
        DefectForm::Twelve => cut(alloc, &[0, told, 0, 0, 0, 0, 0, 0], request.allocation),
    }
}

/// Returns byte 1 of the header: PLISTV and GLISTV as they were asked for, and the format.
fn lists_told(request: &DefectRequest) -> u8
    ensures { result ≡ lists_told request.now }
{
    let primary = if request.primary { 0x10 } else { 0 };
    let grown = if request.grown { 0x08 } else { 0 };
    primary + grown + format_code(request.format)
}

/// Returns the DEFECT LIST FORMAT of a format.
fn format_code(format: DefectFormat) -> u8
    ensures code { result ≡ format_code format }
    ensures few { result ≤ 5 }
{
    match format {
        DefectFormat::ShortBlock => 0,
        DefectFormat::ExtendedBytesFromIndex => 1,
        DefectFormat::ExtendedPhysicalSector => 2,
        DefectFormat::LongBlock => 3,
        DefectFormat::BytesFromIndex => 4,
        DefectFormat::PhysicalSector => 5,
    }
}
