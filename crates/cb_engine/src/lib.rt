//! A reader over a grammar that is given as data.
//!
//! A grammar is a flat list of symbols. What its parts spell, and how a text of a part may begin, is a relation over
//! that list. `read` takes the longest run of tokens that begins a part. For a grammar in which one token decides,
//! which a test over the list shows, the answer is exact: the run is the part and writes exactly these items, or it
//! is not the part.
#![tactic(auto)]

ghost use Rattle.std.specs.Prelude.{◌≡◌, ◌≤◌, ◌<◌, ◌+◌, ℕ, reverse, drop, take, length, MatchOption, IfOk, ◌++◌, ◌∷◌, [], slice_get, replicate};
ghost use Rattle.cb_engine.specs.Tables.{body, find_line, keyed_in, rules_of};
ghost use Rattle.cb_engine.specs.Steps.{move, IsStep};
ghost use Rattle.cb_engine.specs.Rules.{Hints, Decides, group, admits};
ghost use Rattle.cb_engine.specs.Indexed.{IsIndex, Points};
ghost use Rattle.cb_engine.specs.Readings.{IsReading, Light, weight_in};

use std::alloc::{AllocError, Global};

/// Want of memory.
pub type Memory = AllocError;

/// An entry of a grammar's list. Parts, actions and classes of tokens go by numbers; no token has the class 0.
#[derive(Clone, Copy)]
pub enum Symbol {
    /// One token of this class, which leaves no trace.
    Take(u8),
    /// One token of this class, which is written out.
    Keep(u8),
    /// Writes this action out.
    Act(u8),
    /// This part of the grammar.
    Part(u8),
    /// Ends a part that has two sorts, 0 and 1.
    Gives(u8),
    /// Goes on with the first part or the second, by the sort of the part before it.
    Then(u8, u8),
    /// Begins an alternative of a part: the part, a key, and whether the key's token is written out. With the key 0 it
    /// is taken where no other alternative of the part has the token as its key. Else it begins with a token of the
    /// class that is the key. The symbols up to the next line are what it goes on with.
    Line(u8, u8, bool),
}

/// A token as a grammar sees it.
#[derive(Clone, Copy, Debug, PartialEq, Eq)]
pub struct Terminal {
    /// Its class. The classes from 128 on are names that are also words with a meaning of their own in some places,
    /// and those from 120 to 127 are such numbers.
    pub class: u8,
    /// Which token of the text it is.
    pub index: u32,
}

/// What is written out, in postfix order.
#[derive(Clone, Copy, Debug, PartialEq, Eq)]
pub enum Item {
    /// A token.
    Word(Terminal),
    /// An action, over what was written before it.
    Do(u8),
}

/// What reading a part answers.
#[derive(Drop)]
pub enum Reading {
    /// The tokens before this place are the part, and these items are written.
    Whole(usize, Vec<Item>),
    /// The tokens before this place begin the part but are not it, and the token there doesn't go on with it.
    Fault(usize),
}

// what one step did
#[derive(Clone, Copy)]
enum Step {
    // nothing was left to spell
    Over,
    // the token doesn't fit
    Stuck,
    // the token was taken
    Taken,
    // the token still stands
    Stayed,
}

// the class of names or of numbers for a word, else the class itself
fn group_of(class: u8) -> u8
    ensures { result ≡ group class }
{
    if class < 120 {
        class
    } else if class < 128 {
        2
    } else {
        1
    }
}

// whether a symbol of the first class admits a token of the other
fn is_admitted(class: u8, token: u8) -> bool
    ensures { result ≡ admits class token }
{
    class == token || class == group_of(token)
}

// the symbol at a place, if there is one
fn symbol_at(grammar: &[Symbol], at: usize) -> Option<Symbol>
    ensures { result ≡ slice_get grammar.now at }
{
    if at < grammar.len() {
        Some(grammar[at])
    } else {
        None
    }
}

fn zeros(alloc: Global) -> Result<Vec<u16>, Memory>
    ensures { IfOk result (λ made. made.items ≡ replicate 65536 0) }
{
    let made = vec![in alloc; 0u16; 65536]?;
    Ok(made)
}

/// Where each alternative stands: for each part and key 0, or the place after the first such line.
pub fn index(alloc: Global, grammar: &[Symbol]) -> Result<Vec<u16>, Memory>
    requires small { length grammar.now < 65536 }
    ensures { IfOk result (λ made. IsIndex grammar.now made.items) }
{
    let mut places = zeros(alloc)?;
    let mut left = grammar.len();
    while left > 0 {
        left -= 1;
        if let Symbol::Line(part, key, _) = grammar[left] {
            places[part as usize * 256 + key as usize] = (left + 1) as u16;
        }
    }
    Ok(places)
}

// where the first line of the part with the key goes on, and whether it writes its token out
fn line_of(grammar: &[Symbol], places: &[u16], part: u8, key: u8) -> Option<(bool, usize)>
    requires indexed { IsIndex grammar.now places.now }
    ensures { MatchOption result (find_line grammar.now part key ≡ None) (λ l. (l.1 ≤ length grammar.now) × (find_line grammar.now part key ≡ Some (l.0, body (drop l.1 grammar.now)))) }
{
    let at = places[part as usize * 256 + key as usize] as usize;
    if at == 0 {
        return None;
    }
    match symbol_at(grammar, at - 1) {
        Some(Symbol::Line(_, _, keep)) => Some((keep, at)),
        _ => unreachable!(),
    }
}

// the alternative of the part that begins with a token of the class
fn keyed_line(grammar: &[Symbol], places: &[u16], part: u8, class: u8) -> Option<(bool, usize)>
    requires indexed { IsIndex grammar.now places.now }
    requires above { 0 < class }
    ensures { MatchOption result (keyed_in grammar.now part class ≡ None) (λ l. (l.1 ≤ length grammar.now) × (keyed_in grammar.now part class ≡ Some (l.0, body (drop l.1 grammar.now)))) }
{
    match line_of(grammar, places, part, class) {
        Some(found) => Some(found),
        None => line_of(grammar, places, part, group_of(class)),
    }
}

// how many symbols stand before the next line
fn body_len(symbols: &[Symbol]) -> usize
    ensures within { result ≤ length symbols.now }
    ensures body { take result symbols.now ≡ body symbols.now }
{
    for (i, symbol) in symbols.iter().enumerate() {
        if matches!(symbol, Symbol::Line(_, _, _)) {
            return i;
        }
    }
    symbols.len()
}

// puts the symbols before the next line on the stack, the first on top
fn push_body(stack: &mut Vec<Symbol>, symbols: &[Symbol]) -> Result<(), Memory>
    ensures { IfOk result (λ _. reverse stack.new.items ≡ body symbols.now ++ reverse stack.old.items) }
{
    push_all(stack, &symbols[..body_len(symbols)])
}

// puts the symbols on the stack, the first on top
fn push_all(stack: &mut Vec<Symbol>, symbols: &[Symbol]) -> Result<(), Memory>
    ensures { IfOk result (λ _. reverse stack.new.items ≡ symbols.now ++ reverse stack.old.items) }
{
    let mut left = symbols.len();
    while left > 0 {
        left -= 1;
        stack.push(symbols[left])?;
    }
    Ok(())
}

// one step: the top of the stack against the next token
fn step_once(
    grammar: &[Symbol],
    places: &[u16],
    next: Option<Terminal>,
    stack: &mut Vec<Symbol>,
    out: &mut Vec<Item>,
) -> Result<Step, Memory>
    requires indexed { IsIndex grammar.now places.now }
    ensures { IfOk result (λ s. IsStep (move (rules_of grammar.now) next (reverse stack.old.items)) (reverse stack.new.items) out.old.items out.new.items s) }
{
    match stack.pop() {
        None => Ok(Step::Over),
        Some(Symbol::Take(class)) => match next {
            Some(token) if is_admitted(class, token.class) => Ok(Step::Taken),
            _ => Ok(Step::Stuck),
        },
        Some(Symbol::Keep(class)) => match next {
            Some(token) if is_admitted(class, token.class) => {
                out.push(Item::Word(token))?;
                Ok(Step::Taken)
            }
            _ => Ok(Step::Stuck),
        },
        Some(Symbol::Act(action)) => {
            out.push(Item::Do(action))?;
            Ok(Step::Stayed)
        }
        Some(Symbol::Part(part)) => step_part(grammar, places, next, part, stack, out),
        Some(Symbol::Gives(sort)) => match stack.pop() {
            Some(Symbol::Then(first, second)) => {
                stack.push(Symbol::Part(if sort == 0 { first } else { second }))?;
                Ok(Step::Stayed)
            }
            _ => Ok(Step::Stuck),
        },
        Some(Symbol::Then(_, _)) | Some(Symbol::Line(_, _, _)) => Ok(Step::Stuck),
    }
}

// a part against the next token
fn step_part(
    grammar: &[Symbol],
    places: &[u16],
    next: Option<Terminal>,
    part: u8,
    stack: &mut Vec<Symbol>,
    out: &mut Vec<Item>,
) -> Result<Step, Memory>
    requires indexed { IsIndex grammar.now places.now }
    ensures { IfOk result (λ s. IsStep (move (rules_of grammar.now) next (Symbol.Part part ∷ reverse stack.old.items)) (reverse stack.new.items) out.old.items out.new.items s) }
{
    if let Some(token) = next {
        if token.class != 0 {
            if let Some((keep, at)) = keyed_line(grammar, places, part, token.class) {
                if keep {
                    out.push(Item::Word(token))?;
                }
                push_body(stack, &grammar[at..])?;
                return Ok(Step::Taken);
            }
        }
    }
    match line_of(grammar, places, part, 0) {
        Some((_, at)) => {
            push_body(stack, &grammar[at..])?;
            Ok(Step::Stayed)
        }
        None => Ok(Step::Stuck),
    }
}

// the token at a place, if there is one
fn token_at(tokens: &[Terminal], at: usize) -> Option<Terminal>
    ensures { result ≡ slice_get tokens.now at }
{
    if at < tokens.len() {
        Some(tokens[at])
    } else {
        None
    }
}

/// Reads the longest run of tokens from the first on that begins the part. The grammar is one in which one token
/// decides, `places` is its index, and the weights of its parts show that reading ends. An error is want of memory.
pub fn read(
    alloc: Global,
    grammar: &[Symbol],
    places: &[u16],
    weights: &[u8],
    tokens: &[Terminal],
    start: u8,
) -> Result<Reading, Memory>
    requires indexed { IsIndex grammar.now places.now }
    requires decides { (h : Hints) × Decides (rules_of grammar.now) h }
    requires light { Light (rules_of grammar.now) (weight_in weights.now) }
    ensures { IfOk result (λ reading. IsReading (rules_of grammar.now) (Symbol.Part start ∷ []) tokens.now reading) }
{
    let mut stack = Vec::new(alloc);
    stack.push(Symbol::Part(start))?;
    let mut out = Vec::new(alloc);
    let mut at = 0;
    loop {
        let next = token_at(tokens, at);
        match step_once(grammar, places, next, &mut stack, &mut out)? {
            Step::Over => return Ok(Reading::Whole(at, out)),
            Step::Stuck => return Ok(Reading::Fault(at)),
            Step::Taken => at += 1,
            Step::Stayed => {}
        }
    }
}
