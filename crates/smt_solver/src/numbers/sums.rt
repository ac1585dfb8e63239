//! The sums of a theory step, and the operations of these that are outside 128 bits.

ghost use Rattle.std.specs.Prelude.{◌≡◌, ◌<◌, ◌^◌, ◌∷◌, [], All, List, ℕ, Some, None, length, map, slice_get, IfOk, IfErr, MatchOption};
ghost use lib.IntN.{ℤ, pos, negsuc, neg_ℤ};
ghost use lib.Signed.{◌≤ℤ◌};
ghost use Rattle.proof_steps.specs.Meaning.{at};
ghost use Rattle.proof_steps.specs.View.{atom_view, row_view};
ghost use Rattle.proof_steps.specs.StopView.{past_view};
ghost use Rattle.int_simplex.specs.Given.{IsInOrder};
ghost use Rattle.int_simplex.specs.Farkas.{turned};
ghost use Rattle.line_laws.specs.PastSteps.{factor_in, IsSumPast, SumFits};
ghost use Rattle.proof_steps.specs.Rows.{entry};
ghost use Rattle.smt_solver.specs.Near.{IsNear};
ghost use Rattle.smt_solver.specs.Shares.{share_by, share_from, IsNotNegative, factor_at, products_by, limits_by, row_by, IsAdded, IsNotAdded, FitsOrPast, AllFitOrPast, SharesFitOrPast, StepFitsOrPast, AreInOrder, a_past_step, terms_at};

use crate::numbers::asserting::signed;
use crate::numbers::meanings::Meaning;
use int_simplex::Tableau;
use kind_num::{Past, add, mul};
use proof_steps::{Atom, Literal, PastStep};
use sat_core::Search;
use std::alloc::{AllocError, Global};

/// A bound of a refutation: its column with its number in the row that refutes, its limit, and the
/// number of its atom.
#[derive(Clone, Copy)]
pub struct Share {
    pub column: u32,
    pub number: i128,
    pub limit: i128,
    pub atom: u32,
}

// `x <= u` as it stands, `l <= x` as `-x <= -l`.
fn turn(upper: bool, multiplier: i128) -> i128
    requires { pos 0 ≤ℤ multiplier }
    ensures { result ≡ turned upper multiplier }
{
    if upper { multiplier } else { -multiplier }
}

fn share_of(meaning: Meaning, sign: bool, multiplier: i128, atom: u32) -> Share
    requires near { IsNear meaning }
    requires not_negative { pos 0 ≤ℤ multiplier }
    ensures { result ≡ share_from sign multiplier atom (Some meaning) }
{
    let (upper, limit) = signed(meaning, sign);
    let number = turn(upper, multiplier);
    Share {
        column: meaning.column,
        number,
        limit,
        atom,
    }
}

fn meaning_at(meanings: &[Meaning], number: u32) -> Option<Meaning>
    requires few { length meanings.now < 2 ^ 32 }
    ensures { result ≡ at meanings.now number }
{
    meanings.get((number as usize).wrapping_sub(1)).copied()
}

fn one_share(search: &Search, meanings: &[Meaning], multiplier: i128, atom: u32) -> Share
    requires few { length meanings.now < 2 ^ 32 }
    requires near { All IsNear meanings.now }
    requires not_negative { pos 0 ≤ℤ multiplier }
    ensures { result ≡ share_by search.now.trail meanings.now (multiplier, atom) }
{
    let truth = search.value(Literal::Atom(atom, true));
    let sign = matches!(truth, Some(true));
    match meaning_at(meanings, atom) {
        Some(meaning) => share_of(meaning, sign, multiplier, atom),
        None => Share {
            column: 0,
            number: 0,
            limit: 0,
            atom: 0,
        },
    }
}

/// The bounds of a refutation, whose parts are multipliers with numbers of atoms.
pub fn shares(
    alloc: Global,
    search: &Search,
    meanings: &[Meaning],
    parts: &[(i128, u32)],
) -> Result<Vec<Share>, AllocError>
    requires few { length meanings.now < 2 ^ 32 }
    requires near { All IsNear meanings.now }
    requires not_negative { All IsNotNegative parts.now }
    ensures { IfOk result (λ v. v.items ≡ map (share_by search.now.trail meanings.now) parts.now) }
{
    let mut shares = Vec::new(alloc);
    for (multiplier, atom) in parts {
        shares.push(one_share(search, meanings, *multiplier, *atom))?;
    }
    Ok(shares)
}

fn added(sum: i128, number: i128, factor: i128) -> Result<i128, Past>
    ensures ok { IfOk result (IsAdded sum number factor) }
    ensures err { IfErr result (IsNotAdded sum number factor) }
{
    let product = mul(number, factor)?;
    add(sum, product)
}

// The first operation of the products and their partial sums that is outside 128 bits.
fn sum_past(products: &[(i128, i128)]) -> Option<Past>
    ensures { FitsOrPast products.now result }
{
    let mut sum = 0;
    for i in 0..products.len() {
        let (number, factor) = products[i];
        match added(sum, number, factor) {
            Ok(next) => sum = next,
            Err(past) => return Some(past),
        }
    }
    None
}

// The coefficient of the variable.
fn coefficient(terms: &[(u32, i128)], x: u32) -> i128
    requires { IsInOrder terms.now }
    ensures { result ≡ entry terms.now x }
{
    for (y, coefficient) in terms {
        if *y == x {
            return *coefficient;
        }
    }
    0
}

// What the atom's column has of the variable.
fn factor(atom: &Atom, x: u32) -> i128
    requires { IsInOrder (atom_view atom.now).terms }
    ensures { result ≡ factor_in (atom_view atom.now).terms x }
{
    let terms = atom.terms.as_slice();
    if terms.len() == 1 {
        let (y, _) = terms[0];
        return if y == x { 1 } else { 0 };
    }
    coefficient(terms, x)
}

fn atom_at(atoms: &[Atom], number: u32) -> Option<&Atom>
    requires few { length atoms.now < 2 ^ 32 }
    ensures { MatchOption result (at atoms.now number ≡ None) (λ a. at atoms.now number ≡ Some a.now) }
{
    atoms.get((number as usize).wrapping_sub(1))
}

fn factor_of(atoms: &[Atom], number: u32, x: u32) -> i128
    requires few { length atoms.now < 2 ^ 32 }
    requires in_order { AreInOrder atoms.now }
    ensures { result ≡ factor_at (at atoms.now number) x }
{
    match atom_at(atoms, number) {
        Some(atom) => factor(atom, x),
        None => 0,
    }
}

// The bounds' numbers with their limits.
fn limit_products(alloc: Global, shares: &[Share]) -> Result<Vec<(i128, i128)>, AllocError>
    ensures { IfOk result (λ v. v.items ≡ limits_by shares.now) }
{
    let mut products = Vec::new(alloc);
    for share in shares {
        products.push((share.number, share.limit))?;
    }
    Ok(products)
}

// The bounds' numbers with what their columns have of the variable.
fn variable_products(
    alloc: Global,
    atoms: &[Atom],
    shares: &[Share],
    x: u32,
) -> Result<Vec<(i128, i128)>, AllocError>
    requires few { length atoms.now < 2 ^ 32 }
    requires in_order { AreInOrder atoms.now }
    ensures { IfOk result (λ v. v.items ≡ products_by atoms.now x shares.now) }
{
    let mut products = Vec::new(alloc);
    for share in shares {
        products.push((share.number, factor_of(atoms, share.atom, x)))?;
    }
    Ok(products)
}

fn variable_past(
    alloc: Global,
    atoms: &[Atom],
    shares: &[Share],
    x: u32,
) -> Result<Option<Past>, AllocError>
    requires few { length atoms.now < 2 ^ 32 }
    requires in_order { AreInOrder atoms.now }
    ensures { IfOk result (FitsOrPast (products_by atoms.now x shares.now)) }
{
    let products = variable_products(alloc, atoms, shares, x)?;
    Ok(sum_past(&products))
}

// The sums of the variables of these terms.
fn terms_past(
    alloc: Global,
    atoms: &[Atom],
    shares: &[Share],
    terms: &[(u32, i128)],
) -> Result<Option<Past>, AllocError>
    requires few { length atoms.now < 2 ^ 32 }
    requires in_order { AreInOrder atoms.now }
    ensures { IfOk result (AllFitOrPast atoms.now shares.now terms.now) }
{
    for (x, _) in terms {
        if let Some(past) = variable_past(alloc, atoms, shares, *x)? {
            return Ok(Some(past));
        }
    }
    Ok(None)
}

fn share_past(
    alloc: Global,
    atoms: &[Atom],
    shares: &[Share],
    number: u32,
) -> Result<Option<Past>, AllocError>
    requires few { length atoms.now < 2 ^ 32 }
    requires in_order { AreInOrder atoms.now }
    ensures { IfOk result (AllFitOrPast atoms.now shares.now (terms_at (at atoms.now number))) }
{
    match atom_at(atoms, number) {
        Some(atom) => terms_past(alloc, atoms, shares, atom.terms.as_slice()),
        None => Ok(None),
    }
}

// The sums of the variables of all atoms that are used.
fn atoms_past(alloc: Global, atoms: &[Atom], shares: &[Share]) -> Result<Option<Past>, AllocError>
    requires few { length atoms.now < 2 ^ 32 }
    requires in_order { AreInOrder atoms.now }
    ensures { IfOk result (SharesFitOrPast atoms.now shares.now shares.now) }
{
    for share in shares {
        if let Some(past) = share_past(alloc, atoms, shares, share.atom)? {
            return Ok(Some(past));
        }
    }
    Ok(None)
}

/// The first operation of the theory step of these bounds that is outside 128 bits, if one is.
pub fn step_past(
    alloc: Global,
    atoms: &[Atom],
    shares: &[Share],
) -> Result<Option<Past>, AllocError>
    requires few { length atoms.now < 2 ^ 32 }
    requires in_order { AreInOrder atoms.now }
    ensures { IfOk result (StepFitsOrPast atoms.now shares.now) }
{
    let limits = limit_products(alloc, shares)?;
    match sum_past(&limits) {
        Some(past) => Ok(Some(past)),
        None => atoms_past(alloc, atoms, shares),
    }
}

// The bounds' columns with their numbers.
fn refuting_row(alloc: Global, shares: &[Share]) -> Result<Vec<(u32, i128)>, AllocError>
    ensures { IfOk result (λ v. v.items ≡ row_by shares.now) }
{
    let mut row = Vec::new(alloc);
    for share in shares {
        row.push((share.column, share.number))?;
    }
    Ok(row)
}

/// An operation of that step, with the row that refutes and the first given one.
pub fn past_step(
    alloc: Global,
    first: &Vec<(u32, i128)>,
    shares: &[Share],
    past: Past,
) -> Result<PastStep, AllocError>
    ensures { IfOk result (λ s. past_view s ≡ a_past_step (row_by shares.now) (row_view first.now) past) }
{
    let row = refuting_row(alloc, shares)?;
    let given = Vec::from_slice(alloc, first)?;
    let rows = vec![in alloc; row, given]?;
    Ok(PastStep { rows, past })
}
