//! The words by which a header names a disk.

ghost use Rattle.std.specs.Prelude.{◌≡◌, ◌+◌, ◌-◌, ◌≤◌, ◌++◌, ◌≢◌, ◌⊎◌, [], false, true, Ok, None, is_some, replicate, length, codes, IfOk, IfErr};
ghost use Rattle.command_model.specs.Identity.{plain_identity};

use crate::fault::LineFault;
use crate::values::number;
use command_model::{Identity, SERIAL_BYTES};
use hex::FromHex;
use sense::SenseFormat;

/// The words that name a disk, or say where it is, each with a value behind it.
const WORDS: [&str; 11] = [
    "vendor", "product", "revision", "serial", "naa", "exponent", "rotation", "sense", "cache",
    "access", "pages",
];

/// Returns true if a word names a disk, or says where it is, by the value behind it.
pub(crate) fn is_naming(word: &str) -> bool {
    WORDS.iter().any(|known| *known == word)
}

/// Returns a text as a field of ASCII has it, with the same byte behind it to the end (SPC-4 §4.4.1). `BadValue` where
/// it is empty or too long.
fn field<const N: usize>(text: &str, behind: u8) -> Result<[u8; N], LineFault>
    ensures text { IfOk result (λ field. field ≡ text.now ++ replicate (N - length text.now) behind) }
    ensures fits { IfOk result (λ field. length text.now ≤ N) }
    ensures fault { IfErr result (λ fault. fault ≡ LineFault.BadValue) }
{
    let bytes = text.as_bytes();
    if bytes.is_empty() || bytes.len() > N {
        return Err(LineFault::BadValue);
    }
    let mut field = [behind; N];
    field[..bytes.len()].copy_from_slice(bytes);
    Ok(field)
}

/// Reads the name of a format of sense data.
pub(crate) fn sense_format(word: &str) -> Result<SenseFormat, LineFault>
    ensures descriptor { IfOk result (λ format. format ≡ SenseFormat.Descriptor → word.now ≡ codes "descriptor") }
    ensures fixed { IfOk result (λ format. format ≡ SenseFormat.Fixed → word.now ≡ codes "fixed") }
    ensures fault { IfErr result (λ fault. fault ≡ LineFault.BadValue) }
{
    match word {
        "fixed" => Ok(SenseFormat::Fixed),
        "descriptor" => Ok(SenseFormat::Descriptor),
        _ => Err(LineFault::BadValue),
    }
}

/// Reads whether there is a volatile write cache.
pub(crate) fn write_cache(word: &str) -> Result<bool, LineFault>
    ensures volatile { IfOk result (λ cached. cached ≡ true → word.now ≡ codes "volatile") }
    ensures none { IfOk result (λ cached. cached ≡ false → word.now ≡ codes "none") }
    ensures fault { IfErr result (λ fault. fault ≡ LineFault.BadValue) }
{
    match word {
        "none" => Ok(false),
        "volatile" => Ok(true),
        _ => Err(LineFault::BadValue),
    }
}

/// Reads whether a disk is read-only.
pub(crate) fn read_only(word: &str) -> Result<bool, LineFault>
    ensures kept { IfOk result (λ kept. kept ≡ true → word.now ≡ codes "read-only") }
    ensures written { IfOk result (λ kept. kept ≡ false → word.now ≡ codes "read-write") }
    ensures fault { IfErr result (λ fault. fault ≡ LineFault.BadValue) }
{
    match word {
        "read-write" => Ok(false),
        "read-only" => Ok(true),
        _ => Err(LineFault::BadValue),
    }
}

/// Returns what a disk says of itself once a word with its value is added to it. `BadValue` where no name has that word,
/// or the value isn't one of it. It isn't known here which texts and numbers the device takes.
pub(crate) fn named(identity: Identity, word: &str, value: &str) -> Result<Identity, LineFault>
    ensures vendor { word.now ≡ codes "vendor" → IfOk result (λ i.
        i ≡ record identity { vendor = value.now ++ replicate (8 - length value.now) 0x20 }) }
    ensures product { word.now ≡ codes "product" → IfOk result (λ i.
        i ≡ record identity { product = value.now ++ replicate (16 - length value.now) 0x20 }) }
    ensures revision { word.now ≡ codes "revision" → IfOk result (λ i.
        i ≡ record identity { revision = value.now ++ replicate (4 - length value.now) 0x20 }) }
    ensures serial { word.now ≡ codes "serial" → IfOk result (λ i.
        i ≡ record identity { serial = value.now ++ replicate (20 - length value.now) 0; serial_len = length value.now }) }
    ensures naa { word.now ≡ codes "naa" → IfOk result (λ i. i ≡ record identity { naa = i.naa }) }
    ensures exponent { word.now ≡ codes "exponent" → IfOk result (λ i.
        i ≡ record identity { physical_exponent = i.physical_exponent }) }
    ensures rotation { word.now ≡ codes "rotation" → IfOk result (λ i.
        i ≡ record identity { rotation_rate = i.rotation_rate }) }
    ensures sense { word.now ≡ codes "sense" → IfOk result (λ i. i ≡ record identity { sense_format = i.sense_format }) }
    ensures descriptor { word.now ≡ codes "sense" → IfOk result (λ i.
        i.sense_format ≡ SenseFormat.Descriptor → value.now ≡ codes "descriptor") }
    ensures fixed { word.now ≡ codes "sense" → IfOk result (λ i.
        i.sense_format ≡ SenseFormat.Fixed → value.now ≡ codes "fixed") }
    ensures cache { word.now ≡ codes "cache" → IfOk result (λ i. i ≡ record identity { write_cache = i.write_cache }) }
    ensures volatile { word.now ≡ codes "cache" → IfOk result (λ i. i.write_cache ≡ true → value.now ≡ codes "volatile") }
    ensures uncached { word.now ≡ codes "cache" → IfOk result (λ i. i.write_cache ≡ false → value.now ≡ codes "none") }
    ensures access { word.now ≡ codes "access" → IfOk result (λ i. i ≡ record identity { read_only = i.read_only }) }
    ensures kept { word.now ≡ codes "access" → IfOk result (λ i. i.read_only ≡ true → value.now ≡ codes "read-only") }
    ensures written { word.now ≡ codes "access" → IfOk result (λ i. i.read_only ≡ false → value.now ≡ codes "read-write") }
    ensures fault { IfErr result (λ fault. fault ≡ LineFault.BadValue) }
{
    match word {
        "vendor" => {
            let vendor = field::<8>(value, b' ')?;
            Ok(Identity { vendor, ..identity })
        }
        "product" => {
            let product = field::<16>(value, b' ')?;
            Ok(Identity {
                product,
                ..identity
            })
        }
        "revision" => {
            let revision = field::<4>(value, b' ')?;
            Ok(Identity {
                revision,
                ..identity
            })
        }
        "serial" => {
            let serial = field::<SERIAL_BYTES>(value, 0)?;
            Ok(Identity {
                serial,
                serial_len: value.len() as u8,
                ..identity
            })
        }
        "naa" => match <[u8; 8] as FromHex>::from_hex(value) {
            Ok(naa) => Ok(Identity {
                naa: Some(naa),
                ..identity
            }),
            Err(_) => Err(LineFault::BadValue),
        },
        "exponent" => {
            let physical_exponent = number::<u8>(value)?;
            Ok(Identity {
                physical_exponent,
                ..identity
            })
        }
        "rotation" => {
            let rotation_rate = number::<u16>(value)?;
            Ok(Identity {
                rotation_rate,
                ..identity
            })
        }
        "sense" => {
            let sense_format = sense_format(value)?;
            Ok(Identity {
                sense_format,
                ..identity
            })
        }
        "cache" => {
            let write_cache = write_cache(value)?;
            Ok(Identity {
                write_cache,
                ..identity
            })
        }
        "access" => {
            let read_only = read_only(value)?;
            Ok(Identity {
                read_only,
                ..identity
            })
        }
        _ => Err(LineFault::BadValue),
    }
}

/// The names of a disk, and where it is.
#[derive(Clone, Copy)]
pub(crate) struct Names {
    pub(crate) identity: Identity,
    /// The most of its pages that are in memory, where a storage has the others; `None` where it is in memory.
    pub(crate) pages: Option<u32>,
}

impl Names {
    /// A disk in memory that nothing names.
    const PLAIN: Names = Names {
        identity: Identity::PLAIN,
        pages: None,
    };

    /// Adds a word with its value. `BadValue` as of [`named`].
    fn with(self, word: &str, value: &str) -> Result<Names, LineFault>
        ensures pages { word.now ≡ codes "pages" → IfOk result (λ names. names.identity ≡ self.identity) }
        ensures number { word.now ≡ codes "pages" → IfOk result (λ names. is_some names.pages ≡ true) }
        ensures named { word.now ≢ codes "pages" → IfOk result (λ names. names.pages ≡ self.pages) }
        ensures fault { IfErr result (λ fault. fault ≡ LineFault.BadValue) }
    {
        if word == "pages" {
            let pages = number::<u32>(value)?;
            return Ok(Names {
                pages: Some(pages),
                ..self
            });
        }
        let identity = named(self.identity, word, value)?;
        Ok(Names { identity, ..self })
    }
}

/// Returns what words say of a disk, each with its value behind it. `BadValue` where a value lacks.
pub(crate) fn read_names(words: &[&str]) -> Result<Names, LineFault>
    ensures none { words.now ≡ [] → result ≡ Ok (record { identity = plain_identity; pages = None }) }
    ensures fault { IfErr result (λ fault. fault ≡ LineFault.BadValue) }
{
    if words.is_empty() {
        return Ok(Names::PLAIN);
    }
    let mut names = Names::PLAIN;
    let mut rest = words;
    while let [word, value, others @ ..] = rest {
        names = names.with(word, value)?;
        rest = others;
    }
    if rest.is_empty() {
        Ok(names)
    } else {
        Err(LineFault::BadValue)
    }
}
