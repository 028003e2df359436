//! Pages as they are written.
ghost use Rattle.std.specs.Prelude.{encode_utf8_all};
ghost use Rattle.org_page.specs.Pieces.{attribute_text, attributes_text, page_text, piece_text, tag_text, title_end, title_middle};
ghost use Rattle.org_page.specs.Titles.{titled_text};
ghost use Rattle.org_page.specs.Results.{GivesText, Writes};

use crate::character::{Part, push_part};
use crate::piece::{Attribute, Piece, Title};
use std::alloc::{AllocError, Global};

/// The text of a page of these pieces.
pub fn page_text(alloc: Global, pieces: &[Piece]) -> Result<String, AllocError>
    ensures { GivesText result (encode_utf8_all (page_text pieces.now)) }
{
    let mut out = String::new(alloc);
    push_pieces(&mut out, pieces)?;
    Ok(out)
}

fn push_pieces(out: &mut String, pieces: &[Piece]) -> Result<(), AllocError>
    ensures { Writes result out.old out.new (encode_utf8_all (page_text pieces.now)) }
{
    for piece in pieces {
        push_piece(out, piece)?;
    }
    Ok(())
}

fn push_piece(out: &mut String, piece: &Piece) -> Result<(), AllocError>
    ensures { Writes result out.old out.new (encode_utf8_all (piece_text piece.now)) }
{
    match piece {
        Piece::Tag(name, attributes) => push_tag(out, name, attributes.as_slice()),
        Piece::Content(words) => push_part(out, words.as_str(), Part::Words),
        Piece::Titled(title) => push_title(out, title),
    }
}

fn push_tag(out: &mut String, name: &str, attributes: &[Attribute]) -> Result<(), AllocError>
    ensures { Writes result out.old out.new (encode_utf8_all (tag_text name.now attributes.now)) }
{
    out.push('<')?;
    push_part(out, name, Part::Name)?;
    push_attributes(out, attributes)?;
    out.push('>')?;
    Ok(())
}

fn push_attributes(out: &mut String, attributes: &[Attribute]) -> Result<(), AllocError>
    ensures { Writes result out.old out.new (encode_utf8_all (attributes_text attributes.now)) }
{
    for attribute in attributes {
        push_attribute(out, attribute)?;
    }
    Ok(())
}

fn push_attribute(out: &mut String, attribute: &Attribute) -> Result<(), AllocError>
    ensures { Writes result out.old out.new (encode_utf8_all (attribute_text attribute.now)) }
{
    out.push(' ')?;
    push_part(out, attribute.name, Part::Name)?;
    out.push_str("=\"")?;
    push_part(out, attribute.value.as_str(), Part::Words)?;
    out.push('"')?;
    Ok(())
}

fn push_title(out: &mut String, title: &Title) -> Result<(), AllocError>
    ensures { Writes result out.old out.new (encode_utf8_all (titled_text title.now)) }
{
    out.push_str("<a href=\"")?;
    push_part(out, title.link.as_str(), Part::Words)?;
    push_title_middle(out, title.is_done)?;
    push_part(out, title.words.as_str(), Part::Words)?;
    push_title_end(out, title.is_done)?;
    Ok(())
}

fn push_title_middle(out: &mut String, is_done: bool) -> Result<(), AllocError>
    ensures { Writes result out.old out.new (encode_utf8_all (title_middle is_done)) }
{
    if is_done {
        out.push_str("\"><bdi><s>")
    } else {
        out.push_str("\"><bdi>")
    }
}

fn push_title_end(out: &mut String, is_done: bool) -> Result<(), AllocError>
    ensures { Writes result out.old out.new (encode_utf8_all (title_end is_done)) }
{
    if is_done {
        out.push_str("</s></bdi></a>")
    } else {
        out.push_str("</bdi></a>")
    }
}
