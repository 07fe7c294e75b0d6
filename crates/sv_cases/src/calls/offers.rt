//! Offers that are made and ended one after another, with each call made once more where memory was refused: then the table
//! is what it was.

ghost use Rattle.std.specs.Prelude.{◌≡◌, ◌+◌, ◌≤◌, [], Some, IfOk, IfSome, OnOk, length};
ghost use Rattle.sv_offers.specs.Places.{IsNext};
ghost use Rattle.sv_rules.specs.Coupling.{offer_at};

mod rows;

use self::rows::{Asked, MATCHES, NOTHING, PARTIES, QUESTIONS, Question, ROWS, Row};
use crate::calls::samples::letter;
use anyhow::{Context, Result, bail};
use apl_arrays::{List, Name, NameList, PartyList, WantOfMemory};
use case_tables::{Calls, Looks};
use std::alloc::Global;
use sv_events::{Ending, Pair, PairList};
use sv_offers::Offers;
use sv_rules::{Coupling, Standing};

/// A table of offers through all acts of the rows, with what stands after each of them.
#[derive(Clone, Copy, Debug)]
pub struct OfferCalls;

// The offer that a party's act makes at a place, if it is one.
fn offer_of(place: u64, party: u32, asked: Asked) -> Result<Option<Standing>>
    ensures { IfOk result (λ made. IfSome made (λ offer. offer.place ≡ place)) }
{
    match asked {
        Asked::Offer(to, local, surrogate) => Ok(Some(Standing {
            place,
            party,
            to,
            local: letter(local)?,
            surrogate: letter(surrogate)?,
        })),
        Asked::Retract(_) | Asked::Leave => Ok(None),
    }
}

// The offer that was made at a place, if the act there made one.
fn offer_by_row(place: u64) -> Result<Option<Standing>> {
    let index = place.saturating_sub(1) as usize;
    let (party, asked, _, _) = *ROWS.get(index).context("no row is at the place")?;
    offer_of(place, party, asked)
}

// The offer that was made at a place.
fn offer_made_at(place: u64) -> Result<Standing> {
    offer_by_row(place)?.context("no offer is made there")
}

// The place of the act that made a pair.
fn made_at(pair: Pair) -> Result<u64> {
    let index = ROWS
        .iter()
        .position(|row| row.2.contains(&(pair.a, pair.b)));
    Ok(index.context("no row makes the pair")? as u64 + 1)
}

// The partner's place by the mark of an offer.
fn partner_by(mark: u8) -> Option<u64> {
    if mark >= b'A' {
        Some(u64::from(mark - b'A') + 1)
    } else {
        None
    }
}

// The coupling of the offer at a place, if it has a partner.
fn coupling_of(place: u64, partner: Option<u64>) -> Result<Option<Coupling>> {
    let Some(other) = partner else {
        return Ok(None);
    };
    let pair = Pair {
        a: place.min(other),
        b: place.max(other),
    };
    Ok(Some(Coupling {
        a: offer_made_at(pair.a)?,
        b: offer_made_at(pair.b)?,
        at: made_at(pair)?,
    }))
}

// The place of an offer, if there is one.
fn place_of(offer: Option<Standing>) -> Option<u64> {
    match offer {
        None => None,
        Some(offer) => Some(offer.place),
    }
}

// Whether the offer that was made at a place, if one was, is found by its party and name.
fn is_found(table: &Offers, place: u64) -> Result<bool> {
    match offer_by_row(place)? {
        None => Ok(false),
        Some(offer) => {
            let found = table.find(offer.party, &offer.local);
            Ok(place_of(found) == Some(place))
        }
    }
}

// The offer at a place stands, or doesn't, as its mark says.
fn stands_as(looks: &mut Looks, table: &Offers, place: u64, party: u32, mark: u8) -> Result<()> {
    let offer = table.of(party).iter().find(|offer| offer.place == place);
    let partner = partner_by(mark);
    let degree = if partner.is_some() { 2 } else { 1 };
    looks.holds(table.coupling(place) == coupling_of(place, partner)?);
    looks.holds(table.is_coupled(place) == partner.is_some());
    looks.holds(table.degree(place) == degree);
    if mark == b'.' {
        looks.holds(offer.is_none());
        looks.holds(!is_found(table, place)?);
    } else {
        let wanted = offer_made_at(place)?;
        looks.holds(offer.copied() == Some(wanted));
        looks.holds(table.find(party, &wanted.local) == Some(wanted));
    }
    Ok(())
}

// As many offers of each party stand as have marks.
fn no_more_stand(looks: &mut Looks, table: &Offers, marks: &[u8]) {
    for party in PARTIES {
        let count = ROWS
            .iter()
            .zip(marks)
            .filter(|(row, mark)| row.0 == party && **mark != b'.')
            .count();
        looks.holds(table.count(party) == count);
        looks.holds(table.of(party).len() == count);
    }
}

// All stand as their marks say, and no more.
fn all_stand(looks: &mut Looks, table: &Offers, marks: &str) -> Result<()> {
    let marks = marks.as_bytes();
    for (index, row) in ROWS.iter().enumerate() {
        let mark = marks.get(index).context("an act has no mark")?;
        stands_as(looks, table, index as u64 + 1, row.0, *mark)?;
    }
    no_more_stand(looks, table, marks);
    Ok(())
}

// All stand as their marks say once more, behind a call that was refused memory.
fn all_stand_still(table: &Offers, marks: &str) -> Result<()> {
    let mut looks = Looks::new();
    all_stand(&mut looks, table, marks)?;
    if !looks.tally.agrees() {
        bail!("refused memory changed the table");
    }
    Ok(())
}

// An offer is added, the second time where memory was refused: the partner that it is coupled with, if it is.
#[tactic(auto, using(crate::proofs::TableLemmas::stands_last))]
fn added(table: &mut Offers, new: &Standing, before: &str) -> Result<Option<Standing>>
    requires { IsNext table.old new.now.place }
    ensures next { OnOk result (IsNext table.new (new.now.place + 1)) }
    ensures few { OnOk result (length table.new.offers ≤ length table.old.offers + 1) }
    ensures stands { OnOk result (offer_at table.new.offers new.now.place ≡ Some new.now) }
{
    match table.add(new) {
        Ok(partner) => Ok(partner),
        Err(WantOfMemory) => {
            all_stand_still(table, before)?;
            Ok(table.add(new)?)
        }
    }
}

// Room for all pairs, taken the second time where memory was refused.
fn room(alloc: Global) -> Result<PairList>
    ensures { IfOk result (λ made. 28 ≤ made.room) }
{
    let mut made = List::new(alloc);
    if made.reserve(28).is_err() {
        made.reserve(28)?;
    }
    Ok(made)
}

fn are_pairs(looks: &mut Looks, made: &[Pair], wanted: &[(u64, u64)]) {
    looks.holds(made.len() == wanted.len());
    for (pair, (a, b)) in made.iter().zip(wanted) {
        looks.holds((pair.a, pair.b) == (*a, *b));
    }
}

// An act of a party ends offers, and makes the pairs of its row.
#[tactic(auto, using(crate::proofs::TableLemmas::room_suffices, crate::proofs::TableLemmas::few_left, crate::proofs::TableLemmas::next_after))]
fn ended(
    alloc: Global,
    looks: &mut Looks,
    table: &mut Offers,
    place: u64,
    ending: Ending,
    row: &Row,
) -> Result<()>
    requires next { IsNext table.old place }
    requires few { length table.old.offers ≤ 28 }
    ensures next { OnOk result (IsNext table.new (place + 1)) }
    ensures few { OnOk result (length table.new.offers ≤ length table.old.offers) }
{
    let mut made = room(alloc)?;
    table.end(place, row.0, ending, &mut made);
    are_pairs(looks, made.as_slice(), row.2);
    Ok(())
}

// The act of a row, which is an offer, is made at a place: before it these stand.
fn offered(looks: &mut Looks, table: &mut Offers, place: u64, row: &Row, before: &str) -> Result<()>
    requires { IsNext table.old place }
    ensures next { OnOk result (IsNext table.new (place + 1)) }
    ensures few { OnOk result (length table.new.offers ≤ length table.old.offers + 1) }
{
    let (party, asked, made, _) = *row;
    let new = offer_of(place, party, asked)?.context("it is no offer")?;
    let partner = added(table, &new, before)?;
    let wanted = made.first().map(|pair| pair.0);
    looks.holds(place_of(partner) == wanted);
    looks.holds(table.coupling_on(&new) == coupling_of(place, wanted)?);
    Ok(())
}

// The act of a row is made at a place: before it these stand.
fn done(
    alloc: Global,
    looks: &mut Looks,
    table: &mut Offers,
    place: u64,
    row: &Row,
    before: &str,
) -> Result<()>
    requires next { IsNext table.old place }
    requires few { length table.old.offers ≤ 28 }
    ensures next { OnOk result (IsNext table.new (place + 1)) }
    ensures few { OnOk result (length table.new.offers ≤ length table.old.offers + 1) }
{
    match row.1 {
        Asked::Offer(..) => offered(looks, table, place, row, before),
        Asked::Retract(local) => {
            let ending = Ending::One(letter(local)?);
            ended(alloc, looks, table, place, ending, row)
        }
        Asked::Leave => ended(alloc, looks, table, place, Ending::All, row),
    }
}

// The parties with open offers to a party, asked for the second time where memory was refused.
fn parties_to(alloc: Global, table: &Offers, party: u32) -> Result<PartyList> {
    match table.parties_to(alloc, party) {
        Ok(parties) => Ok(parties),
        Err(WantOfMemory) => Ok(table.parties_to(alloc, party)?),
    }
}

// The names of a party's open offers to another, asked for the second time where memory was refused.
fn names_to(alloc: Global, table: &Offers, from: u32, to: u32) -> Result<NameList> {
    match table.names_to(alloc, from, to) {
        Ok(names) => Ok(names),
        Err(WantOfMemory) => Ok(table.names_to(alloc, from, to)?),
    }
}

// A place, none where it is 0.
fn place_or_none(place: u64) -> Option<u64> {
    if place == 0 { None } else { Some(place) }
}

// Names are these letters, in this order.
fn are_letters(looks: &mut Looks, names: &[Name], letters: &[u8]) -> Result<()> {
    looks.holds(names.len() == letters.len());
    for (name, code) in names.iter().zip(letters) {
        looks.holds(*name == letter(*code)?);
    }
    Ok(())
}

// A question is answered as it should be.
fn answered(alloc: Global, looks: &mut Looks, table: &Offers, question: &Question) -> Result<()> {
    let (_, to, oldest, parties, from, letters) = *question;
    looks.holds(place_of(table.oldest_to(to)) == place_or_none(oldest));
    let told = parties_to(alloc, table, to)?;
    looks.holds(told.as_slice() == parties);
    let names = names_to(alloc, table, from, to)?;
    are_letters(looks, names.as_slice(), letters)
}

// What is asked after so many acts is answered as it should be.
fn all_answered(alloc: Global, looks: &mut Looks, table: &Offers, acts: usize) -> Result<()> {
    for question in &QUESTIONS {
        if question.0 == acts {
            answered(alloc, looks, table, question)?;
        }
    }
    Ok(())
}

fn all_matched(looks: &mut Looks, table: &Offers, acts: usize) -> Result<()> {
    for (after, place, other) in &MATCHES {
        if *after == acts {
            let found = table.oldest_match(&offer_made_at(*place)?);
            looks.holds(place_of(found) == place_or_none(*other));
        }
    }
    Ok(())
}

// All acts are made one after another, and all that stands is looked at after each. It ends early where memory was refused
// to a call twice, or changed the table where it was refused.
fn all_done(alloc: Global, looks: &mut Looks, table: &mut Offers) -> Result<()>
    requires { table.old ≡ record { offers = []; coupled = [] } }
{
    let mut before = NOTHING;
    for index in 0..ROWS.len() {
        let row = &ROWS[index];
        done(alloc, looks, table, index as u64 + 1, row, before)?;
        before = row.3;
        all_stand(looks, table, before)?;
        all_answered(alloc, looks, table, index + 1)?;
        all_matched(looks, table, index + 1)?;
    }
    Ok(())
}

impl Calls for OfferCalls {
    fn make(&self, alloc: Global, looks: &mut Looks) -> Result<()> {
        let mut table = Offers::new(alloc);
        let told = all_done(alloc, looks, &mut table);
        drop(table);
        if told.is_err() {
            looks.holds(false);
        }
        Ok(())
    }
}
