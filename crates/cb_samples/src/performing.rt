//! Runs of small substitutions from the empty store, and the first numbers of some streams.

ghost use Rattle.std.specs.Prelude.{◌≡◌, ◌≤ℤ◌, pos, [], ◌∷◌, ◌++◌, IfOk};
ghost use Rattle.cb_spec.specs.Stores.{empty};
ghost use Rattle.cb_term.specs.declared.sign.RelSign.TheVariants.{Equal};
ghost use Rattle.cb_term.specs.declared.sign.TermSign.TheVariants.{Range};
ghost use Rattle.cb_term.specs.Tree.{Var, Num, Bin, Rel};
ghost use Rattle.cb_spec.specs.SubstTree.{Assign, AnyOf, Choice, sides_of};
ghost use Rattle.cb_spec.specs.Example as letters;
ghost use Rattle.cb_samples.specs.Performed as example;
ghost use Rattle.cb_relation.specs.Performing.{CanRun};

use cb_relation::perform::perform;
use cb_relation::pick::{Pick, Stream};
use cb_spec::store::Store;
use cb_spec::subst::{Subst, SubstNode};
use cb_term::Memory;
use cb_term::kind::Domain;
use cb_term::name::{Name, NameText};
use cb_term::sign::{RelSign, TermSign};
use cb_term::table::SetTable;
use cb_term::tree::{Formula, Term};
use cb_term::value::Value;
use sqlite_items::Items;
use std::alloc::Global;
use std::test::Fail;

// Takes this number, or the greatest that is allowed.
#[derive(Drop)]
struct Same(u64);

impl Pick for Same {
    fn below(&mut self, n: u64) -> u64 {
        self.0.min(n - 1)
    }
}

fn name(alloc: Global, letter: u8) -> Result<Name, Memory>
    ensures { IfOk result (λ x. x ≡ letters.letter letter) }
{
    let text = NameText::from_slice(alloc, &[letter])?;
    Ok(Name { text, number: 0 })
}

fn assign(alloc: Global, target: u8, value: Term) -> Result<Subst, Memory>
    ensures { IfOk result (λ s. s ≡ Assign (letters.letter target) value) }
{
    let target = name(alloc, target)?;
    Ok(Subst {
        node: SubstNode::Assign { target, value },
    })
}

fn one_side(alloc: Global, side: Subst) -> Result<Items<Subst>, Memory>
    ensures { IfOk result (λ sides. sides ≡ side ∷ []) }
{
    let mut sides = Items::new(alloc);
    sides.push(side)?;
    Ok(sides)
}

fn either(mut sides: Items<Subst>, second: Subst) -> Result<Subst, Memory>
    ensures { IfOk result (λ s. s ≡ Choice (sides_of (sides ++ second ∷ []))) }
{
    sides.push(second)?;
    Ok(Subst {
        node: SubstNode::Choice(sides),
    })
}

fn one_or_two(alloc: Global) -> Result<Subst, Memory>
    ensures { IfOk result (λ s. s ≡ example.one_or_two) }
{
    let sides = one_side(alloc, assign(alloc, b'n', Term::num(1))?)?;
    let second = assign(alloc, b'n', Term::num(2))?;
    either(sides, second)
}

fn assigned(alloc: Global, target: u8, value: Term) -> Result<Box<Subst>, Memory>
    ensures { IfOk result (λ b. b.value ≡ Assign (letters.letter target) value) }
{
    let subst = assign(alloc, target, value)?;
    Ok(Box::new(alloc, subst)?)
}

fn four_and_five(alloc: Global) -> Result<(Box<Subst>, Box<Subst>), Memory>
    ensures four { IfOk result (λ p. p.0.value ≡ Assign example.m (Num (pos 4))) }
    ensures five { IfOk result (λ p. p.1.value ≡ Assign example.m (Num (pos 5))) }
{
    let four = assigned(alloc, b'm', Term::num(4))?;
    let five = assigned(alloc, b'm', Term::num(5))?;
    Ok((four, five))
}

fn is_zero(alloc: Global) -> Result<Formula, Memory>
    ensures { IfOk result (λ f. f ≡ Rel Equal (Var example.n) (Num (pos 0))) }
{
    let left = Term::var(name(alloc, b'n')?);
    Ok(Formula::rel(RelSign::Equal, left, Term::num(0)))
}

fn if_zero(alloc: Global) -> Result<Box<Subst>, Memory>
    ensures { IfOk result (λ b. b.value ≡ example.if_zero) }
{
    let test = is_zero(alloc)?;
    let (then, other) = four_and_five(alloc)?;
    let node = SubstNode::If { test, then, other };
    Ok(Box::new(alloc, Subst { node })?)
}

fn side_by_side(alloc: Global) -> Result<Subst, Memory>
    ensures { IfOk result (λ s. s ≡ example.side_by_side) }
{
    let right = if_zero(alloc)?;
    let left = assigned(alloc, b'n', Term::num(1))?;
    Ok(Subst {
        node: SubstNode::Together(left, right),
    })
}

fn nested(alloc: Global) -> Result<Subst, Memory>
    ensures { IfOk result (λ s. s ≡ example.nested) }
{
    let sides = one_side(alloc, side_by_side(alloc)?)?;
    let second = one_or_two(alloc)?;
    either(sides, second)
}

fn z_and_its_use(alloc: Global) -> Result<(Name, Box<Subst>), Memory>
    ensures name { IfOk result (λ p. p.0 ≡ example.z) }
    ensures body { IfOk result (λ p. p.1.value ≡ Assign example.n (Var example.z)) }
{
    let body = assigned(alloc, b'n', Term::var(name(alloc, b'z')?))?;
    let name = name(alloc, b'z')?;
    Ok((name, body))
}

// `ANY z WHERE .. THEN n := z END`.
fn any(alloc: Global, domain: Domain, test: Formula) -> Result<Subst, Memory>
    ensures { IfOk result (λ s. s ≡ AnyOf example.z domain test (Assign example.n (Var example.z))) }
{
    let (name, body) = z_and_its_use(alloc)?;
    Ok(Subst {
        node: SubstNode::AnyOf {
            name,
            domain,
            test,
            body,
        },
    })
}

// z between the two numbers, or of numbers between them.
fn z_within(alloc: Global, sign: RelSign, lo: i64, hi: i64) -> Result<Formula, Memory>
    ensures { IfOk result (λ f. f ≡ Rel sign (Var example.z) (Bin Range (Num lo) (Num hi))) }
{
    let range = Term::bin(alloc, TermSign::Range, Term::num(lo), Term::num(hi))?;
    let z = Term::var(name(alloc, b'z')?);
    Ok(Formula::rel(sign, z, range))
}

// The number before z.
fn before_z(alloc: Global, number: i64, sign: RelSign) -> Result<Formula, Memory>
    ensures { IfOk result (λ f. f ≡ Rel sign (Num number) (Var example.z)) }
{
    let z = Term::var(name(alloc, b'z')?);
    Ok(Formula::rel(sign, Term::num(number), z))
}

fn last_of(alloc: Global, last: i64) -> Result<Subst, Memory>
    requires low { pos 1 ≤ℤ last }
    requires high { last ≤ℤ pos 65536 }
    ensures { IfOk result (λ s. s ≡ example.last_of last) }
{
    let member = z_within(alloc, RelSign::Member, 1, last)?;
    let above = before_z(alloc, last - 1, RelSign::Less)?;
    let test = Formula::and(alloc, member, above)?;
    any(alloc, Domain::Range { lo: 1, hi: last }, test)
}

fn set_with_one(alloc: Global) -> Result<Subst, Memory>
    ensures { IfOk result (λ s. s ≡ example.set_with_one) }
{
    let part = z_within(alloc, RelSign::Subset, 0, 1)?;
    let member = before_z(alloc, 1, RelSign::Member)?;
    let test = Formula::and(alloc, part, member)?;
    any(alloc, Domain::Subsets { lo: 0, hi: 1 }, test)
}

// The store after a run, where each choice takes this number.
fn after(alloc: Global, subst: &Subst, number: u64) -> Result<Store, Memory>
    requires { CanRun [] empty subst.now }
{
    let sets = SetTable {
        sets: Vec::new(alloc),
    };
    let store = Store::new(alloc);
    perform(alloc, &sets, subst, &store, &mut Same(number))
}

// What the run writes to the name.
fn written(alloc: Global, subst: &Subst, number: u64, letter: u8) -> Result<Value, Memory>
    requires { CanRun [] empty subst.now }
{
    let name = name(alloc, letter)?;
    let after = after(alloc, subst, number)?;
    after.value_at(alloc, &name)
}

fn from_one_or_two(alloc: Global, number: u64) -> Result<Value, Memory> {
    let subst = one_or_two(alloc)?;
    written(alloc, &subst, number, b'n')
}

fn from_nested(alloc: Global, number: u64, letter: u8) -> Result<Value, Memory> {
    let subst = nested(alloc)?;
    written(alloc, &subst, number, letter)
}

fn from_last_of(alloc: Global, last: i64, number: u64) -> Result<Value, Memory>
    requires low { pos 1 ≤ℤ last }
    requires high { last ≤ℤ pos 65536 }
{
    let subst = last_of(alloc, last)?;
    written(alloc, &subst, number, b'n')
}

fn from_set_with_one(alloc: Global, number: u64) -> Result<Value, Memory> {
    let subst = set_with_one(alloc)?;
    written(alloc, &subst, number, b'n')
}

#[test]
fn a_choice_takes_the_side_that_is_told(rt: HostRuntime) -> Result<(), Fail> {
    let alloc = rt.alloc();
    assert!(rt; matches!(from_one_or_two(alloc, 0)?, Value::Int(1)));
    assert!(rt; matches!(from_one_or_two(alloc, 1)?, Value::Int(2)));
    Ok(())
}

#[test]
fn both_sides_read_the_store_before(rt: HostRuntime) -> Result<(), Fail> {
    let alloc = rt.alloc();
    assert!(rt; matches!(from_nested(alloc, 0, b'm')?, Value::Int(4)));
    assert!(rt; matches!(from_nested(alloc, 1, b'n')?, Value::Int(2)));
    Ok(())
}

#[test]
fn a_value_of_any_meets_the_test(rt: HostRuntime) -> Result<(), Fail> {
    let alloc = rt.alloc();
    assert!(rt; matches!(from_last_of(alloc, 3, 0)?, Value::Int(3)));
    assert!(rt; matches!(from_last_of(alloc, 3, 2)?, Value::Int(3)));
    assert!(rt; matches!(from_last_of(alloc, 65536, 0)?, Value::Int(65536)));
    Ok(())
}

#[test]
fn a_value_of_any_is_a_set(rt: HostRuntime) -> Result<(), Fail> {
    let value = from_set_with_one(rt.alloc(), 3)?;
    let Value::Set(items) = &value else {
        return Err("no set".into());
    };
    assert_eq!(rt; items.as_slice(), [0, 1].as_slice());
    Ok(())
}

#[test]
fn first_numbers_of_streams(rt: HostRuntime) -> Result<(), Fail> {
    let table: [(u64, [u64; 10]); 3] = [
        (
            0,
            [
                167951807, 218396424, 1299921937, 861605236, 823830125, 1204436891, 169888184,
                764459975, 1036791264, 959018139,
            ],
        ),
        (
            5,
            [
                1724882992, 301167773, 1762018234, 664543405, 950767375, 556451411, 973315619,
                1939561909, 574358090, 442144824,
            ],
        ),
        (
            4294967295,
            [
                69501759, 1503429036, 1091279824, 2129514251, 663846270, 1479768959, 492109816,
                1860332840, 1620854143, 553379200,
            ],
        ),
    ];
    for (seed, numbers) in table {
        let mut stream = Stream::new(seed);
        let mut again = Stream::new(seed);
        for number in numbers {
            assert_eq!(rt; stream.below(4294967296), number);
            assert_eq!(rt; again.below(10), number % 10);
        }
    }
    Ok(())
}
