//! A run of code over the parts of one column.

ghost use Rattle.std.specs.Prelude.{◌≡◌, ◌≢◌, ℕ, ◌+◌, ◌*◌, ◌<◌, ◌≤◌, [], ◌∷◌, ◌++◌, map, length};
ghost use Rattle.query_lang.specs.Words.{op_value};
ghost use Rattle.fold_code.specs.Machine.{Fits, AllFit, instr_value, vars_after, run_code, instr_steps, steps_of};
ghost use Rattle.fold_class.specs.Parts.{parts, part_operation, share_operation, part_negation, part_mask, part_choice, column_shares};
ghost use Rattle.fold_class.specs.{Kinds.role, Step.list_of, Stored.{part_of, part_at, IfKeeps}};

use crate::class::{Algebra, Role};
use crate::operators::Operators;
use crate::part::Part;
use coeff_algebra::Coeff;
use fold_code::Instr;
use marple_base::Steps;
use query_lang::Op;
use std::sync::ledger::Ledger;

// The part that three words hold.
fn get_part<C: Coeff>(from: &[u64]) -> Part<C>
    requires { length from.now ≡ 3 }
    ensures { result ≡ part_of C.from_words C.WORDS from.now }
{
    if from[0] == 0 {
        Part::Fixed(from[1])
    } else if from[0] == 1 {
        Part::Share(C::load(&from[1..1 + C::WORDS]))
    } else {
        Part::Lost
    }
}

// Three words that hold the part.
fn put_part<C: Coeff>(part: Part<C>, to: &mut [u64])
    requires { length to.old ≡ 3 }
    ensures part { part_of C.from_words C.WORDS to.new ≡ part }
    ensures length { length to.new ≡ 3 }
{
    match part {
        Part::Fixed(word) => {
            to[0] = 0;
            to[1] = word;
        }
        Part::Share(element) => {
            to[0] = 1;
            element.store(&mut to[1..1 + C::WORDS]);
        }
        Part::Lost => {
            to[0] = 2;
        }
    }
}

// The part at a place.
pub(crate) fn load_part<C: Coeff>(words: &[u64], place: usize) -> Part<C>
    requires { place * 3 + 3 ≤ length words.now }
    ensures { result ≡ part_at C.from_words C.WORDS words.now place }
{
    get_part(&words[place * 3..place * 3 + 3])
}

// Writes a part at a place. The others stay unchanged.
pub(crate) fn store_part<C: Coeff>(words: &mut [u64], place: usize, part: Part<C>)
    requires { place * 3 + 3 ≤ length words.old }
    ensures here { part_at C.from_words C.WORDS words.new place ≡ part }
    ensures others { (other : ℕ) → other ≢ place
        → part_at C.from_words C.WORDS words.new other ≡ part_at C.from_words C.WORDS words.old other }
{
    put_part(part, &mut words[place * 3..place * 3 + 3]);
}

// Writes three words at once.
fn put_words(to: &mut [u64], mark: u64, first: u64, second: u64)
    requires { length to.old ≡ 3 }
    ensures { to.new ≡ mark ∷ first ∷ second ∷ [] }
{
    to[0] = mark;
    to[1] = first;
    to[2] = second;
}

// Copies the part at one place to another. The others stay unchanged.
fn copy_part<C: Coeff>(words: &mut [u64], from: usize, to: usize)
    requires from { from * 3 + 3 ≤ length words.old }
    requires to { to * 3 + 3 ≤ length words.old }
    ensures here { part_at C.from_words C.WORDS words.new to ≡ part_at C.from_words C.WORDS words.old from }
    ensures others { (other : ℕ) → other ≢ to
        → part_at C.from_words C.WORDS words.new other ≡ part_at C.from_words C.WORDS words.old other }
{
    let start = from * 3;
    let mark = words[start];
    let first = words[start + 1];
    let second = words[start + 2];
    put_words(&mut words[to * 3..to * 3 + 3], mark, first, second);
}

// A word's share in one column.
pub(crate) fn lift<C: Coeff>(word: u64, column: usize, dimension: usize) -> C
    ensures { result ≡ (column_shares C.elements dimension column).lift word }
{
    if column == dimension {
        C::embed(word)
    } else {
        C::zero()
    }
}

// The result of an operator with this role on two shares, which has this part as their product.
fn combine_shares<C: Coeff>(role: Role, left: C, right: C, product: Part<C>) -> Part<C>
    ensures { result ≡ share_operation C.elements.add (λ w e. C.elements.mul (C.elements.embed w) e) role left right product }
{
    match role {
        Role::Sum => Part::Share(left.add(right)),
        Role::Difference => Part::Share(left.add(C::embed(u64::MAX).mul(right))),
        Role::Product => product,
        Role::Outside => Part::Lost,
    }
}

// The result of an operator on two parts.
fn combine<C: Coeff>(
    algebra: Algebra,
    op: Op,
    left: Part<C>,
    right: Part<C>,
    column: usize,
    dimension: usize,
) -> Part<C>
    ensures { result ≡ part_operation (column_shares C.elements dimension column) (role algebra op) (op_value op) left right }
{
    let role = algebra.role_of(op);
    match left {
        Part::Fixed(x) => match right {
            Part::Fixed(y) => Part::Fixed(op.value(x, y)),
            Part::Share(e) => {
                let product = Part::Share(C::embed(x).mul(e));
                combine_shares(role, lift(x, column, dimension), e, product)
            }
            Part::Lost => Part::Lost,
        },
        Part::Share(d) => match right {
            Part::Fixed(y) => {
                let product = Part::Share(C::embed(y).mul(d));
                combine_shares(role, d, lift(y, column, dimension), product)
            }
            Part::Share(e) => combine_shares(role, d, e, Part::Lost),
            Part::Lost => Part::Lost,
        },
        Part::Lost => Part::Lost,
    }
}

// The negation of the value as a condition: 1 if it is 0, else 0.
fn negate<C: Coeff>(part: Part<C>) -> Part<C>
    ensures { result ≡ part_negation part }
{
    match part {
        Part::Fixed(x) => Part::Fixed(u64::from(x == 0)),
        _ => Part::Lost,
    }
}

// The mask of a block: of the one that runs where the condition holds, or of the other.
fn block_mask<C: Coeff>(wanted: bool, mask: Part<C>, condition: Part<C>) -> Part<C>
    ensures { result ≡ part_mask wanted mask condition }
{
    match mask {
        Part::Fixed(m) => {
            if m == 0 {
                Part::Fixed(0)
            } else {
                match condition {
                    Part::Fixed(x) => Part::Fixed(u64::from((x != 0) == wanted)),
                    _ => Part::Lost,
                }
            }
        }
        _ => Part::Lost,
    }
}

// Writes the chosen part at a place: the new one where the mask holds, else the old one. The others stay unchanged.
fn copy_choice<C: Coeff>(words: &mut [u64], mask: usize, new: usize, old: usize, place: usize)
    requires mask { mask < place }
    requires new { new < place }
    requires old { old < place }
    requires room { place * 3 + 3 ≤ length words.old }
    ensures here { part_at C.from_words C.WORDS words.new place
        ≡ part_choice (part_at C.from_words C.WORDS words.old mask) (part_at C.from_words C.WORDS words.old new)
        (part_at C.from_words C.WORDS words.old old) }
    ensures others { (other : ℕ) → other ≢ place
        → part_at C.from_words C.WORDS words.new other ≡ part_at C.from_words C.WORDS words.old other }
{
    let mask: Part<C> = load_part(words, mask);
    match mask {
        Part::Fixed(m) => {
            if m == 0 {
                copy_part::<C>(words, old, place);
            } else {
                copy_part::<C>(words, new, place);
            }
        }
        _ => store_part::<C>(words, place, Part::Lost),
    }
}

// Writes the value of an instruction at its place. `scratch` begins with the variables' parts, and then has one for each
// earlier instruction.
#[tactic(auto, using(crate::proofs::StepLemmas::list_of_at, crate::proofs::StoredLemmas::fixed_at))]
fn write_value<C: Coeff>(
    instr: Instr,
    number: usize,
    states: usize,
    algebra: Algebra,
    args: &[u64],
    scratch: &mut [u64],
    column: usize,
    dimension: usize,
)
    requires fits { Fits states (length args.now) number instr }
    requires room { (states + number) * 3 + 3 ≤ length scratch.old }
    ensures here { part_at C.from_words C.WORDS scratch.new (states + number)
        ≡ instr_value (parts (column_shares C.elements dimension column) algebra) instr
        (list_of states (part_at C.from_words C.WORDS scratch.old)) (map (λ w. Part.Fixed w) args.now)
        (list_of number (λ i. part_at C.from_words C.WORDS scratch.old (states + i))) }
    ensures others { (other : ℕ) → other ≢ states + number
        → part_at C.from_words C.WORDS scratch.new other ≡ part_at C.from_words C.WORDS scratch.old other }
{
    let place = states + number;
    match instr {
        Instr::Constant(n) => store_part::<C>(scratch, place, Part::Fixed(n)),
        Instr::State(v) => copy_part::<C>(scratch, v as usize, place),
        Instr::Argument(a) => store_part::<C>(scratch, place, Part::Fixed(args[a as usize])),
        Instr::Negate(x) => {
            let part: Part<C> = load_part(scratch, states + x as usize);
            store_part(scratch, place, negate(part));
        }
        Instr::Operate(op, x, y) => {
            let left: Part<C> = load_part(scratch, states + x as usize);
            let right: Part<C> = load_part(scratch, states + y as usize);
            let part = combine(algebra, op, left, right, column, dimension);
            store_part(scratch, place, part);
        }
        Instr::Then(mask, x) => {
            let outer: Part<C> = load_part(scratch, states + mask as usize);
            let condition: Part<C> = load_part(scratch, states + x as usize);
            store_part(scratch, place, block_mask(true, outer, condition));
        }
        Instr::Else(mask, x) => {
            let outer: Part<C> = load_part(scratch, states + mask as usize);
            let condition: Part<C> = load_part(scratch, states + x as usize);
            store_part(scratch, place, block_mask(false, outer, condition));
        }
        Instr::Keep(v, mask, x) => copy_choice::<C>(
            scratch,
            states + mask as usize,
            states + x as usize,
            v as usize,
            place,
        ),
    }
}

// The variable that an instruction writes takes the part at the instruction's place.
#[tactic(auto, using(crate::proofs::StoredLemmas::list_changed))]
fn store_variable<C: Coeff, L: Ledger>(
    instr: Instr,
    number: usize,
    states: usize,
    scratch: &mut [u64],
    steps: &mut Steps<L>,
)
    requires variable { IfKeeps instr states }
    requires room { (states + number) * 3 + 3 ≤ length scratch.old }
    ensures vars { list_of states (part_at C.from_words C.WORDS scratch.new)
        ≡ vars_after instr (part_at C.from_words C.WORDS scratch.old (states + number))
        (list_of states (part_at C.from_words C.WORDS scratch.old)) }
    ensures others { (other : ℕ) → states ≤ other
        → part_at C.from_words C.WORDS scratch.new other ≡ part_at C.from_words C.WORDS scratch.old other }
    ensures steps { steps.new ≡ steps.old + instr_steps instr }
{
    if let Instr::Keep(v, _, _) = instr {
        copy_part::<C>(scratch, states + number, v as usize);
        steps.tick();
    }
    steps.tick();
}

// Runs the instructions over the parts of a column. `scratch` begins with the variables' parts.
pub(crate) fn run_column<C: Coeff, L: Ledger>(
    instrs: &[Instr],
    states: usize,
    algebra: Algebra,
    args: &[u64],
    scratch: &mut [u64],
    column: usize,
    dimension: usize,
    steps: &mut Steps<L>,
)
    requires fits { AllFit states (length args.now) 0 instrs.now }
    requires room { (states + length instrs.now) * 3 ≤ length scratch.old }
    ensures vars { list_of states (part_at C.from_words C.WORDS scratch.new)
        ≡ run_code (parts (column_shares C.elements dimension column) algebra) instrs.now (map (λ w. Part.Fixed w) args.now)
        (list_of states (part_at C.from_words C.WORDS scratch.old)) [] }
    ensures steps { steps.new ≡ steps.old + steps_of instrs.now }
{
    for (number, instr) in instrs.iter().enumerate() {
        write_value::<C>(
            *instr, number, states, algebra, args, scratch, column, dimension,
        );
        store_variable::<C, L>(*instr, number, states, scratch, steps);
    }
}
