//! The commands that the wide profile has and the narrow one lacks.

/// A command that only the wide profile has. Its small fields stand first, so that a [`crate::Command`] is no larger
/// for it.
#[derive(Clone, Copy, PartialEq, Eq)]
pub enum WideCommand {
    /// MODE SENSE (6) or (10) (SPC-4 §6.13, §6.14).
    ModeSense(ModeRequest),
    /// MODE SELECT (6) or (10) (SPC-4 §6.11, §6.12).
    ModeSelect {
        /// The form of the header.
        form: ModeForm,
        /// The bytes of the parameter list, 0 to 65,535.
        list_length: u16,
    },
    /// REPORT SUPPORTED TASK MANAGEMENT FUNCTIONS (SPC-4 §6.36).
    ReportTaskManagement {
        /// True if the extended parameter data are asked for: REPD is 1.
        extended: bool,
        /// The most bytes to return, at least 4.
        allocation: u32,
    },
    /// GET LBA STATUS (SBC-3 §5.4).
    GetLbaStatus {
        /// The most bytes to return.
        allocation: u32,
        /// The first block to tell of.
        lba: u64,
    },
    /// REPORT SUPPORTED OPERATION CODES (SPC-4 §6.35).
    ReportOperationCodes {
        /// The commands to tell of.
        asked: CodesAsked,
        /// True if command timeouts descriptors are asked for: RCTD is 1.
        timeouts: bool,
        /// The most bytes to return.
        allocation: u32,
    },
    /// VERIFY (10), (12) or (16) that compares (SBC-3 §5.29 to §5.31). One that doesn't is a
    /// [`crate::Command::SynchronizeCache`].
    Verify {
        /// The data to compare with.
        sent: VerifyData,
        /// The number of blocks, 0 to `MOST_TRANSFER_BLOCKS`.
        blocks: u16,
        /// The first block.
        lba: u64,
    },
    /// WRITE SAME (16) without data: NDOB is 1 (SBC-3 §5.44). One with data is a [`crate::Command::WriteSame`].
    WriteZeros {
        /// The number of blocks, 1 to `MOST_WRITE_SAME_BLOCKS`.
        blocks: u32,
        /// The first block.
        lba: u64,
    },
    /// ORWRITE (16) (SBC-3 §5.5).
    OrWrite {
        /// The number of blocks, 0 to `MOST_TRANSFER_BLOCKS`.
        blocks: u16,
        /// The first block.
        lba: u64,
    },
    /// FORMAT UNIT (SBC-3 §5.3).
    FormatUnit {
        /// The parameter list that is sent.
        list: FormatList,
    },
    /// READ DEFECT DATA (10) or (12) (SBC-3 §5.17, §5.18).
    ReadDefectData(DefectRequest),
}

/// What a READ DEFECT DATA asks for.
#[derive(Clone, Copy, PartialEq, Eq)]
pub struct DefectRequest {
    /// The form of the header.
    pub form: DefectForm,
    /// True if the primary defect list is asked for: REQ_PLIST is 1.
    pub primary: bool,
    /// True if the grown defect list is asked for: REQ_GLIST is 1.
    pub grown: bool,
    /// The format of the list.
    pub format: DefectFormat,
    /// The most bytes to return.
    pub allocation: u32,
}

/// The form of defect data: its header (SBC-3 §5.17, §5.18).
#[derive(Clone, Copy, PartialEq, Eq)]
pub enum DefectForm {
    /// 4 bytes, of READ DEFECT DATA (10).
    Ten,
    /// 8 bytes, of READ DEFECT DATA (12).
    Twelve,
}

/// The format of the address descriptors of a list of defects: the field DEFECT LIST FORMAT (SBC-3 §5.3.2).
#[derive(Clone, Copy, PartialEq, Eq)]
pub enum DefectFormat {
    /// 000b: blocks, by addresses of 32 bits.
    ShortBlock,
    /// 001b: bytes from index, extended.
    ExtendedBytesFromIndex,
    /// 010b: physical sectors, extended.
    ExtendedPhysicalSector,
    /// 011b: blocks, by addresses of 64 bits.
    LongBlock,
    /// 100b: bytes from index.
    BytesFromIndex,
    /// 101b: physical sectors.
    PhysicalSector,
}

/// The parameter list of a FORMAT UNIT: the bits FMTDATA and LONGLIST (SBC-3 §5.3). A unit takes no list of defects, so it
/// is a header alone.
#[derive(Clone, Copy, PartialEq, Eq)]
pub enum FormatList {
    /// None: FMTDATA is 0.
    NoList,
    /// A header of 4 bytes.
    ShortHeader,
    /// A header of 8 bytes: LONGLIST is 1.
    LongHeader,
}

/// The commands that a REPORT SUPPORTED OPERATION CODES tells of: the field REPORTING OPTIONS (SPC-4 §6.35).
#[derive(Clone, Copy, PartialEq, Eq)]
pub enum CodesAsked {
    /// 000b: all.
    AllCommands,
    /// 001b: that of an opcode without service actions.
    OneCommand {
        /// The opcode.
        opcode: u8,
    },
    /// 010b: that of an opcode and a service action.
    OneServiceAction {
        /// The opcode.
        opcode: u8,
        /// The service action.
        action: u16,
    },
    /// 011b: that of an opcode and a service action, or of an opcode without service actions, where the other is 0.
    OneOfEither {
        /// The opcode.
        opcode: u8,
        /// The service action.
        action: u16,
    },
}

/// The data that blocks are compared with: the field BYTCHK (SBC-3 §5.29).
#[derive(Clone, Copy, PartialEq, Eq)]
pub enum VerifyData {
    /// 01b: a block of data for each.
    EachBlock,
    /// 11b: one block of data for all.
    OneBlock,
}

/// What a MODE SENSE asks for.
#[derive(Clone, Copy, PartialEq, Eq)]
pub struct ModeRequest {
    /// The form of the header.
    pub form: ModeForm,
    /// The block descriptor to return.
    pub descriptor: ModeDescriptor,
    /// The pages to return.
    pub pages: ModePages,
    /// The values to return of them.
    pub values: ModeValues,
    /// The most bytes to return, 0 to 65,535.
    pub allocation: u16,
}

/// The form of a mode parameter list: its header (SPC-4 §7.5.5).
#[derive(Clone, Copy, PartialEq, Eq)]
pub enum ModeForm {
    /// 4 bytes, of MODE SENSE (6) and MODE SELECT (6).
    Six,
    /// 8 bytes, of MODE SENSE (10) and MODE SELECT (10).
    Ten,
}

/// The block descriptor of a mode parameter list (SBC-3 §6.5.2).
#[derive(Clone, Copy, PartialEq, Eq)]
pub enum ModeDescriptor {
    /// None: DBD is 1.
    Absent,
    /// 8 bytes, with a number of blocks of 32 bits.
    Short,
    /// 16 bytes, with a number of blocks of 64 bits: LLBAA is 1.
    Long,
}

/// The mode pages that a page code names (SPC-4 §7.5, SBC-3 §6.5).
#[derive(Clone, Copy, PartialEq, Eq)]
pub enum ModePages {
    /// Page 01h, Read-Write Error Recovery.
    ErrorRecovery,
    /// Page 08h, Caching.
    Caching,
    /// Page 0Ah, Control.
    Control,
    /// Page 1Ch, Informational Exceptions Control.
    InformationalExceptions,
    /// Page code 3Fh: all of these, by rising code.
    All,
}

/// The values of mode parameters that a MODE SENSE asks for: the field PC (SPC-4 §6.13).
#[derive(Clone, Copy, PartialEq, Eq)]
pub enum ModeValues {
    /// 00b: as they are.
    Current,
    /// 01b: a mask of the bits that MODE SELECT can change.
    Changeable,
    /// 10b: as they are at the start.
    Default,
    /// 11b: as they were saved.
    Saved,
}
