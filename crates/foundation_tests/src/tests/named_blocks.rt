//! Command blocks of the commands that name blocks.

use super::commands::Asks;
use cdb::Command;

pub(super) static ROWS: [Asks; 32] = [
    // READ (6), (10), (12), (16).
    Asks(
        b"\x08\x1f\xff\xfe\x00\x00",
        Command::Read {
            lba: 0x1ffffe,
            blocks: 256,
        },
        0,
        131072,
    ),
    Asks(
        b"\x08\xe0\x01\x02\x03\xfb",
        Command::Read {
            lba: 0x102,
            blocks: 3,
        },
        0,
        1536,
    ),
    Asks(
        b"\x08\x00\x00\x00\xff\x00",
        Command::Read {
            lba: 0x0,
            blocks: 255,
        },
        0,
        130560,
    ),
    Asks(
        b"\x28\x1f\x01\x02\x03\x04\xff\x08\x00\xfb",
        Command::Read {
            lba: 0x1020304,
            blocks: 2048,
        },
        0,
        1048576,
    ),
    Asks(
        b"\x28\x00\x00\x00\x00\x04\x00\x00\x00\x00",
        Command::Read {
            lba: 0x4,
            blocks: 0,
        },
        0,
        0,
    ),
    Asks(
        b"\x28\x00\xff\xff\xff\xff\x00\x00\x01\x00",
        Command::Read {
            lba: 0xffffffff,
            blocks: 1,
        },
        0,
        512,
    ),
    Asks(
        b"\xa8\x1f\x01\x02\x03\x04\x00\x00\x08\x00\xff\xfb",
        Command::Read {
            lba: 0x1020304,
            blocks: 2048,
        },
        0,
        1048576,
    ),
    Asks(
        b"\xa8\x00\x00\x00\x00\x04\x00\x00\x04\x04\x00\x00",
        Command::Read {
            lba: 0x4,
            blocks: 1028,
        },
        0,
        526336,
    ),
    Asks(
        b"\x88\x1f\x01\x02\x03\x04\x05\x06\x07\x08\x00\x00\x08\x00\xff\xfb",
        Command::Read {
            lba: 0x102030405060708,
            blocks: 2048,
        },
        0,
        1048576,
    ),
    Asks(
        b"\x88\x00\xff\xff\xff\xff\xff\xff\xff\xff\x00\x00\x00\x04\x00\x00",
        Command::Read {
            lba: 0xffffffffffffffff,
            blocks: 4,
        },
        0,
        2048,
    ),
    // WRITE (6), (10), (12), (16).
    Asks(
        b"\x0a\x01\x02\x03\x00\x00",
        Command::Write {
            lba: 0x10203,
            blocks: 256,
        },
        131072,
        0,
    ),
    Asks(
        b"\x0a\xf0\x00\x00\x01\x00",
        Command::Write {
            lba: 0x100000,
            blocks: 1,
        },
        512,
        0,
    ),
    Asks(
        b"\x2a\x1f\x01\x02\x03\x04\xff\x08\x00\xfb",
        Command::Write {
            lba: 0x1020304,
            blocks: 2048,
        },
        1048576,
        0,
    ),
    Asks(
        b"\x2a\x00\x00\x00\x00\x04\x00\x00\x00\x00",
        Command::Write {
            lba: 0x4,
            blocks: 0,
        },
        0,
        0,
    ),
    Asks(
        b"\x2a\x00\xff\xff\xff\xff\x00\x00\x01\x00",
        Command::Write {
            lba: 0xffffffff,
            blocks: 1,
        },
        512,
        0,
    ),
    Asks(
        b"\xaa\x1f\x01\x02\x03\x04\x00\x00\x08\x00\xff\xfb",
        Command::Write {
            lba: 0x1020304,
            blocks: 2048,
        },
        1048576,
        0,
    ),
    Asks(
        b"\xaa\x00\x00\x00\x00\x04\x00\x00\x04\x04\x00\x00",
        Command::Write {
            lba: 0x4,
            blocks: 1028,
        },
        526336,
        0,
    ),
    Asks(
        b"\x8a\x1f\x01\x02\x03\x04\x05\x06\x07\x08\x00\x00\x08\x00\xff\xfb",
        Command::Write {
            lba: 0x102030405060708,
            blocks: 2048,
        },
        1048576,
        0,
    ),
    Asks(
        b"\x8a\x00\xff\xff\xff\xff\xff\xff\xff\xff\x00\x00\x00\x04\x00\x00",
        Command::Write {
            lba: 0xffffffffffffffff,
            blocks: 4,
        },
        2048,
        0,
    ),
    // SYNCHRONIZE CACHE (10), (16).
    Asks(
        b"\x35\xff\x01\x02\x03\x04\xff\xff\xff\xfb",
        Command::SynchronizeCache {
            lba: 0x1020304,
            blocks: 65535,
        },
        0,
        0,
    ),
    Asks(
        b"\x35\x00\x00\x00\x00\x05\x00\x00\x00\x00",
        Command::SynchronizeCache {
            lba: 0x5,
            blocks: 0,
        },
        0,
        0,
    ),
    Asks(
        b"\x91\xff\x01\x02\x03\x04\x05\x06\x07\x08\xff\xff\xff\xff\xff\xfb",
        Command::SynchronizeCache {
            lba: 0x102030405060708,
            blocks: 4294967295,
        },
        0,
        0,
    ),
    // WRITE SAME (10), (16).
    Asks(
        b"\x41\x08\x01\x02\x03\x04\x00\xff\xff\xfb",
        Command::WriteSame {
            lba: 0x1020304,
            blocks: 65535,
        },
        512,
        0,
    ),
    Asks(
        b"\x41\x01\x00\x00\x00\x04\x00\x00\x01\x00",
        Command::WriteSame {
            lba: 0x4,
            blocks: 1,
        },
        512,
        0,
    ),
    Asks(
        b"\x93\x08\x01\x02\x03\x04\x05\x06\x07\x08\x00\x01\x00\x00\x00\xfb",
        Command::WriteSame {
            lba: 0x102030405060708,
            blocks: 65536,
        },
        512,
        0,
    ),
    Asks(
        b"\x93\x00\x00\x00\x00\x00\x00\x00\x00\x04\x00\x00\x00\x01\x00\x00",
        Command::WriteSame {
            lba: 0x4,
            blocks: 1,
        },
        512,
        0,
    ),
    // COMPARE AND WRITE.
    Asks(
        b"\x89\x1f\x01\x02\x03\x04\x05\x06\x07\x08\xff\xff\xff\x40\x00\xfb",
        Command::CompareAndWrite {
            lba: 0x102030405060708,
            blocks: 64,
        },
        65536,
        0,
    ),
    Asks(
        b"\x89\x00\x00\x00\x00\x00\x00\x00\x00\x04\x00\x00\x00\x01\x00\x00",
        Command::CompareAndWrite {
            lba: 0x4,
            blocks: 1,
        },
        1024,
        0,
    ),
    Asks(
        b"\x89\x00\x00\x00\x00\x00\x00\x00\x00\x04\x00\x00\x00\x00\x00\x00",
        Command::CompareAndWrite {
            lba: 0x4,
            blocks: 0,
        },
        0,
        0,
    ),
    // UNMAP.
    Asks(
        b"\x42\x00\x00\x00\x00\x00\x00\x00\x18\x00",
        Command::Unmap { list_length: 24 },
        24,
        0,
    ),
    Asks(
        b"\x42\xfe\xff\xff\xff\xff\xff\xff\xff\xfb",
        Command::Unmap { list_length: 65535 },
        65535,
        0,
    ),
    Asks(
        b"\x42\x00\x00\x00\x00\x00\x00\x00\x00\x00",
        Command::Unmap { list_length: 0 },
        0,
        0,
    ),
];
