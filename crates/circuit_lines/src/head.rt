//! The lines before the nodes: the title, the width and the parameters.

ghost use Rattle.refusals.specs.Reading.{Gives};
ghost use Rattle.circuit_lines.specs.Numbers.{field_at};
ghost use Rattle.circuit_lines.specs.Reading.{last_field_at, glwe_at, lwe_at, gadget_at, width_at, head_at};

use crate::numbers::{Read, field_at, literal_at};

/// The numbers of the line `glwe K LOG_N ONES ERROR`.
#[derive(Clone, Copy, Debug, PartialEq, Eq)]
pub struct GlweNumbers {
    pub k: i128,
    pub log_n: i128,
    pub ones: i128,
    pub error: i128,
}

/// The numbers of the line `lwe N ONES ERROR`.
#[derive(Clone, Copy, Debug, PartialEq, Eq)]
pub struct LweNumbers {
    pub n: i128,
    pub ones: i128,
    pub error: i128,
}

/// The numbers of the line `boot BASE LEVEL` or `switch BASE LEVEL`.
#[derive(Clone, Copy, Debug, PartialEq, Eq)]
pub struct GadgetNumbers {
    pub base: i128,
    pub level: i128,
}

/// The numbers of the lines before the nodes.
#[derive(Clone, Copy, Debug, PartialEq, Eq)]
pub struct Head {
    pub width: i128,
    pub glwe: GlweNumbers,
    pub lwe: LweNumbers,
    pub boot: GadgetNumbers,
    pub switch: GadgetNumbers,
}

/// The literal text, and then the last number of a line.
#[tactic(auto, unfolding(crate::specs::Reading::last_field_at))]
pub(crate) fn last_field_at<'a>(line: u32, bytes: &'a [u8], literal: &[u8]) -> Read<'a, i128>
    ensures { Gives (λ x. (x.0, x.1.now)) result (last_field_at line literal.now bytes.now) }
{
    let (number, rest) = field_at(line, bytes, literal)?;
    let rest = literal_at(line, rest, b"\n")?;
    Ok((number, rest))
}

#[tactic(auto, unfolding(crate::specs::Reading::width_at))]
fn width_at(bytes: &[u8]) -> Read<'_, i128>
    ensures { Gives (λ x. (x.0, x.1.now)) result (width_at bytes.now) }
{
    let rest = literal_at(1, bytes, b"fhec circuit 1\n")?;
    last_field_at(2, rest, b"width ")
}

#[tactic(auto, unfolding(crate::specs::Reading::glwe_at))]
fn glwe_at(bytes: &[u8]) -> Read<'_, GlweNumbers>
    ensures { Gives (λ x. (x.0, x.1.now)) result (glwe_at bytes.now) }
{
    let (k, rest) = field_at(3, bytes, b"glwe ")?;
    let (log_n, rest) = field_at(3, rest, b" ")?;
    let (ones, rest) = field_at(3, rest, b" ")?;
    let (error, rest) = last_field_at(3, rest, b" ")?;
    let glwe = GlweNumbers {
        k,
        log_n,
        ones,
        error,
    };
    Ok((glwe, rest))
}

#[tactic(auto, unfolding(crate::specs::Reading::lwe_at))]
fn lwe_at(bytes: &[u8]) -> Read<'_, LweNumbers>
    ensures { Gives (λ x. (x.0, x.1.now)) result (lwe_at bytes.now) }
{
    let (n, rest) = field_at(4, bytes, b"lwe ")?;
    let (ones, rest) = field_at(4, rest, b" ")?;
    let (error, rest) = last_field_at(4, rest, b" ")?;
    Ok((LweNumbers { n, ones, error }, rest))
}

#[tactic(auto, unfolding(crate::specs::Reading::gadget_at))]
fn gadget_at<'a>(line: u32, bytes: &'a [u8], name: &[u8]) -> Read<'a, GadgetNumbers>
    ensures { Gives (λ x. (x.0, x.1.now)) result (gadget_at line name.now bytes.now) }
{
    let (base, rest) = field_at(line, bytes, name)?;
    let (level, rest) = last_field_at(line, rest, b" ")?;
    Ok((GadgetNumbers { base, level }, rest))
}

/// Reads the lines before the nodes, the first six, and answers the bytes after them.
#[tactic(auto, unfolding(crate::specs::Reading::head_at))]
pub fn read_head(bytes: &[u8]) -> Read<'_, Head>
    ensures { Gives (λ x. (x.0, x.1.now)) result (head_at bytes.now) }
{
    let (width, rest) = width_at(bytes)?;
    let (glwe, rest) = glwe_at(rest)?;
    let (lwe, rest) = lwe_at(rest)?;
    let (boot, rest) = gadget_at(5, rest, b"boot ")?;
    let (switch, rest) = gadget_at(6, rest, b"switch ")?;
    let head = Head {
        width,
        glwe,
        lwe,
        boot,
        switch,
    };
    Ok((head, rest))
}
