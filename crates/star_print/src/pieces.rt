//! The parts of a container, with commas between them.
ghost use Rattle.std.specs.Prelude.{◌≡◌, ◌++◌, [], ◌∷◌, IfOk, OnOk};
ghost use Rattle.std.specs.List.{flat_map};
ghost use Rattle.star_print.specs.Forms.{field_pieces, item_pieces, listed, pair_pieces};
ghost use Rattle.star_print.specs.declared.forms.Piece.TheVariants as piece;

use crate::forms::Piece;
use bz_text::{Mem, Seq};
use star_core::{NamedVal, Pair, Val};
use std::alloc::Global;

pub(crate) fn parts_of_items(alloc: Global, items: &[Val]) -> Mem<Seq<Piece>>
    ensures { IfOk result (λ pieces. pieces ≡ listed item_pieces items.now) }
{
    let mut pieces = Vec::new(alloc);
    if let Some((first, more)) = items.split_first() {
        pieces.push(Piece::Shown(*first))?;
        push_items(&mut pieces, more)?;
    }
    Ok(Seq::of_vec(pieces))
}

fn push_items(pieces: &mut Vec<Piece>, items: &[Val]) -> Mem<()>
    ensures { OnOk result (pieces.new.items ≡ pieces.old.items
        ++ flat_map (λ item. piece.Comma ∷ [] ++ item_pieces item) items.now) }
{
    'listing: for item in items {
        pieces.push(Piece::Comma)?;
        pieces.push(Piece::Shown(*item))?;
    }
    Ok(())
}

pub(crate) fn parts_of_pairs(alloc: Global, pairs: &[Pair]) -> Mem<Seq<Piece>>
    ensures { IfOk result (λ pieces. pieces ≡ listed pair_pieces pairs.now) }
{
    let mut pieces = Vec::new(alloc);
    if let Some((first, more)) = pairs.split_first() {
        push_pair(&mut pieces, first)?;
        push_pairs(&mut pieces, more)?;
    }
    Ok(Seq::of_vec(pieces))
}

fn push_pairs(pieces: &mut Vec<Piece>, pairs: &[Pair]) -> Mem<()>
    ensures { OnOk result (pieces.new.items ≡ pieces.old.items
        ++ flat_map (λ pair. piece.Comma ∷ [] ++ pair_pieces pair) pairs.now) }
{
    'listing: for pair in pairs {
        pieces.push(Piece::Comma)?;
        push_pair(pieces, pair)?;
    }
    Ok(())
}

fn push_pair(pieces: &mut Vec<Piece>, pair: &Pair) -> Mem<()>
    ensures { OnOk result (pieces.new.items ≡ pieces.old.items ++ pair_pieces pair.now) }
{
    pieces.push(Piece::Shown(pair.key))?;
    pieces.push(Piece::Colon)?;
    pieces.push(Piece::Shown(pair.value))?;
    Ok(())
}

pub(crate) fn parts_of_fields(alloc: Global, fields: &[NamedVal]) -> Mem<Seq<Piece>>
    ensures { IfOk result (λ pieces. pieces ≡ listed field_pieces fields.now) }
{
    let mut pieces = Vec::new(alloc);
    if let Some((first, more)) = fields.split_first() {
        push_field(alloc, &mut pieces, first)?;
        push_fields(alloc, &mut pieces, more)?;
    }
    Ok(Seq::of_vec(pieces))
}

fn push_fields(alloc: Global, pieces: &mut Vec<Piece>, fields: &[NamedVal]) -> Mem<()>
    ensures { OnOk result (pieces.new.items ≡ pieces.old.items
        ++ flat_map (λ field. piece.Comma ∷ [] ++ field_pieces field) fields.now) }
{
    'listing: for field in fields {
        pieces.push(Piece::Comma)?;
        push_field(alloc, pieces, field)?;
    }
    Ok(())
}

fn push_field(alloc: Global, pieces: &mut Vec<Piece>, field: &NamedVal) -> Mem<()>
    ensures { OnOk result (pieces.new.items ≡ pieces.old.items ++ field_pieces field.now) }
{
    pieces.push(Piece::Name(field.name.copy(alloc)?))?;
    pieces.push(Piece::Equals)?;
    pieces.push(Piece::Shown(field.val))?;
    Ok(())
}
