//! How deep a text goes: a walk over its tokens.

ghost use Rattle.std.specs.Prelude.{◌≡◌, ◌≤◌, ◌<◌, ◌+◌, ◌^◌, ◌∷◌, reverse, length, IfOk, map};
ghost use Rattle.cb_grammar.specs.Marks.{mark_of, keyword_mark, sign_mark};
ghost use Rattle.cb_grammar.specs.Depth.{in_brackets, is_bracket, is_elsif, state, IsSound, IsAfter, with_levels, opened, one_more, no_signs, ended, closed, without_elsifs, of_nodes, is_word, too_deep, start, first_deep};

use crate::Memory;
use cb_lex::token::{Keyword, Sign, Sort, Token};
use std::alloc::Global;

/// What a token does to the depth.
#[derive(Clone, Copy)]
pub enum Mark {
    /// `(`, of nodes in a proof outside brackets, else a level.
    Parenthesis,
    /// `)`
    CloseParenthesis,
    /// `{`
    Brace,
    /// `[`
    Bracket,
    /// `}` or `]`
    Close,
    /// IF, CHOICE, ANY, BEGIN or PRE
    Block,
    /// ELSIF
    Elsif,
    /// END
    End,
    /// A sign that counts on its level.
    Counted,
    /// `,`, `;` or a keyword that sets its level's number of signs back.
    Reset,
    /// PROOF
    Proof,
    /// A written name, and so perhaps a rule.
    Word,
    /// Any other token.
    Other,
}

/// What opened a level.
#[derive(Clone, Copy)]
pub enum Opening {
    Grouping,
    Bracket,
    Block,
    Elsif,
}

/// An open level, and the counted signs on it.
#[derive(Clone, Copy)]
pub struct Level {
    pub opening: Opening,
    pub signs: u32,
}

/// What the walk keeps beside the open levels: the signs on the outermost level, the depth, whether a proof is read,
/// and how many parentheses of nodes are open.
#[derive(Clone, Copy)]
pub struct Counts {
    pub outer: u32,
    pub depth: u32,
    pub proof: bool,
    pub nodes: usize,
}

fn mark_of_keyword(keyword: Keyword) -> Mark
    ensures { result ≡ keyword_mark keyword }
{
    match keyword {
        Keyword::If | Keyword::Choice | Keyword::AnyOf | Keyword::Begin | Keyword::Pre =>
            Mark::Block,
        Keyword::Elsif => Mark::Elsif,
        Keyword::End => Mark::End,
        Keyword::Proof => Mark::Proof,
        Keyword::Or | Keyword::Mod => Mark::Counted,
        Keyword::Machine
        | Keyword::Sees
        | Keyword::Sets
        | Keyword::Constants
        | Keyword::Properties
        | Keyword::Variables
        | Keyword::Invariant
        | Keyword::Initialisation
        | Keyword::Operations
        | Keyword::Then
        | Keyword::Else
        | Keyword::ChoiceOr
        | Keyword::Where
        | Keyword::Channels
        | Keyword::Controller
        | Keyword::Machines
        | Keyword::Start
        | Keyword::Processes
        | Keyword::Inv
        | Keyword::System => Mark::Reset,
        _ => Mark::Other,
    }
}

fn mark_of_sign(sign: Sign) -> Mark
    ensures { result ≡ sign_mark sign }
{
    match sign {
        Sign::OpenParenthesis => Mark::Parenthesis,
        Sign::CloseParenthesis => Mark::CloseParenthesis,
        Sign::OpenBrace => Mark::Brace,
        Sign::OpenBracket => Mark::Bracket,
        Sign::CloseBrace | Sign::CloseBracket => Mark::Close,
        Sign::And
        | Sign::Implies
        | Sign::Equivalent
        | Sign::Plus
        | Sign::Minus
        | Sign::Times
        | Sign::Divide
        | Sign::Union
        | Sign::Intersection
        | Sign::Arrow
        | Sign::ExternalChoice
        | Sign::InternalChoice
        | Sign::Parallel => Mark::Counted,
        Sign::Comma | Sign::Semicolon => Mark::Reset,
        _ => Mark::Other,
    }
}

fn mark_of_token(token: &Token) -> Mark
    ensures { result ≡ mark_of token.now }
{
    match &token.sort {
        Sort::Word(_) => Mark::Word,
        Sort::Keyword(keyword) => mark_of_keyword(*keyword),
        Sort::Sign(sign) => mark_of_sign(*sign),
        _ => Mark::Other,
    }
}

fn is_bracket_opening(opening: Opening) -> bool
    ensures { result ≡ is_bracket opening }
{
    matches!(opening, Opening::Bracket)
}

fn is_elsif_opening(opening: Opening) -> bool
    ensures { result ≡ is_elsif opening }
{
    matches!(opening, Opening::Elsif)
}

fn is_word_mark(mark: Mark) -> bool
    ensures { result ≡ is_word mark }
{
    matches!(mark, Mark::Word)
}

// whether a level of `[` is open
fn is_in_brackets(levels: &[Level]) -> bool
    ensures { result ≡ in_brackets (reverse levels.now) }
{
    let mut left = levels.len();
    while left > 0 {
        left -= 1;
        if is_bracket_opening(levels[left].opening) {
            return true;
        }
    }
    false
}

fn open(levels: &mut Vec<Level>, counts: Counts, opening: Opening) -> Result<Counts, Memory>
    requires sound { IsSound counts (reverse levels.old.items) }
    requires low { counts.depth ≤ 200 }
    ensures { IfOk result (λ c. (state c (reverse levels.new.items) ≡ opened opening (state counts (reverse levels.old.items))) × IsSound c (reverse levels.new.items)) }
{
    levels.push(Level { opening, signs: 0 })?;
    Ok(Counts {
        depth: counts.depth + 1,
        ..counts
    })
}

fn close(levels: &mut Vec<Level>, counts: Counts) -> Counts
    requires sound { IsSound counts (reverse levels.old.items) }
    ensures { (state result (reverse levels.new.items) ≡ with_levels (state counts (reverse levels.old.items)) (closed (reverse levels.old.items))) × IsSound result (reverse levels.new.items) }
{
    match levels.pop() {
        Some(level) => Counts {
            depth: counts.depth - 1 - level.signs,
            ..counts
        },
        None => counts,
    }
}

fn add_sign(levels: &mut Vec<Level>, counts: Counts) -> Result<Counts, Memory>
    requires sound { IsSound counts (reverse levels.old.items) }
    requires low { counts.depth ≤ 200 }
    ensures { IfOk result (λ c. (state c (reverse levels.new.items) ≡ one_more (state counts (reverse levels.old.items)) (reverse levels.old.items)) × IsSound c (reverse levels.new.items)) }
{
    match levels.pop() {
        Some(level) => {
            levels.push(Level {
                opening: level.opening,
                signs: level.signs + 1,
            })?;
            Ok(Counts {
                depth: counts.depth + 1,
                ..counts
            })
        }
        None => Ok(Counts {
            outer: counts.outer + 1,
            depth: counts.depth + 1,
            ..counts
        }),
    }
}

fn set_back(levels: &mut Vec<Level>, counts: Counts) -> Result<Counts, Memory>
    requires sound { IsSound counts (reverse levels.old.items) }
    ensures { IfOk result (λ c. (state c (reverse levels.new.items) ≡ no_signs (state counts (reverse levels.old.items)) (reverse levels.old.items)) × IsSound c (reverse levels.new.items) × c.depth ≤ counts.depth × c.nodes ≡ counts.nodes) }
{
    match levels.pop() {
        Some(level) => {
            levels.push(Level {
                opening: level.opening,
                signs: 0,
            })?;
            Ok(Counts {
                depth: counts.depth - level.signs,
                ..counts
            })
        }
        None => Ok(Counts {
            outer: 0,
            depth: counts.depth - counts.outer,
            ..counts
        }),
    }
}

// closes the open ELSIFs and the level of the IF
fn close_block(levels: &mut Vec<Level>, counts: Counts) -> Counts
    requires sound { IsSound counts (reverse levels.old.items) }
    ensures { (state result (reverse levels.new.items) ≡ with_levels (state counts (reverse levels.old.items)) (closed (without_elsifs (reverse levels.old.items)))) × IsSound result (reverse levels.new.items) × result.depth ≤ counts.depth × result.nodes ≡ counts.nodes }
{
    let mut depth = counts.depth;
    while let Some(level) = levels.pop() {
        depth = depth - 1 - level.signs;
        if !is_elsif_opening(level.opening) {
            break;
        }
    }
    Counts { depth, ..counts }
}

fn end(levels: &mut Vec<Level>, counts: Counts) -> Counts
    requires sound { IsSound counts (reverse levels.old.items) }
    ensures { (state result (reverse levels.new.items) ≡ ended (state counts (reverse levels.old.items)) (reverse levels.old.items)) × IsSound result (reverse levels.new.items) × result.depth ≤ counts.depth × result.nodes ≡ counts.nodes }
{
    if levels.is_empty() {
        return Counts {
            outer: 0,
            depth: 0,
            ..counts
        };
    }
    close_block(levels, counts)
}

// whether a parenthesis is one of nodes
fn is_of_nodes(levels: &[Level], counts: Counts) -> bool
    ensures { result ≡ of_nodes (state counts (reverse levels.now)) }
{
    counts.proof && !is_in_brackets(levels)
}

fn open_parenthesis(levels: &mut Vec<Level>, counts: Counts) -> Result<Counts, Memory>
    requires sound { IsSound counts (reverse levels.old.items) }
    requires low { counts.depth ≤ 200 }
    requires room { counts.nodes + 1 < 2 ^ 64 }
    ensures { IfOk result (λ c. IsAfter Mark.Parenthesis counts (reverse levels.old.items) c (reverse levels.new.items)) }
{
    if is_of_nodes(levels, counts) {
        Ok(Counts {
            nodes: counts.nodes + 1,
            ..counts
        })
    } else {
        open(levels, counts, Opening::Grouping)
    }
}

fn close_parenthesis(levels: &mut Vec<Level>, counts: Counts) -> Counts
    requires sound { IsSound counts (reverse levels.old.items) }
    ensures { IsAfter Mark.CloseParenthesis counts (reverse levels.old.items) result (reverse levels.new.items) }
{
    if is_of_nodes(levels, counts) {
        Counts {
            nodes: counts.nodes.saturating_sub(1),
            ..counts
        }
    } else {
        close(levels, counts)
    }
}

fn elsif(levels: &mut Vec<Level>, counts: Counts) -> Result<Counts, Memory>
    requires sound { IsSound counts (reverse levels.old.items) }
    requires low { counts.depth ≤ 200 }
    ensures { IfOk result (λ c. IsAfter Mark.Elsif counts (reverse levels.old.items) c (reverse levels.new.items)) }
{
    let counts = set_back(levels, counts)?;
    open(levels, counts, Opening::Elsif)
}

// one token
fn step(mark: Mark, levels: &mut Vec<Level>, counts: Counts) -> Result<Counts, Memory>
    requires sound { IsSound counts (reverse levels.old.items) }
    requires low { counts.depth ≤ 200 }
    requires room { counts.nodes + 1 < 2 ^ 64 }
    ensures { IfOk result (λ c. IsAfter mark counts (reverse levels.old.items) c (reverse levels.new.items)) }
{
    match mark {
        Mark::Parenthesis => open_parenthesis(levels, counts),
        Mark::CloseParenthesis => Ok(close_parenthesis(levels, counts)),
        Mark::Brace => open(levels, counts, Opening::Grouping),
        Mark::Bracket => open(levels, counts, Opening::Bracket),
        Mark::Close => Ok(close(levels, counts)),
        Mark::Block => open(levels, counts, Opening::Block),
        Mark::Elsif => elsif(levels, counts),
        Mark::End => Ok(end(levels, counts)),
        Mark::Counted => add_sign(levels, counts),
        Mark::Reset => set_back(levels, counts),
        Mark::Proof => {
            let counts = set_back(levels, counts)?;
            Ok(Counts {
                proof: true,
                nodes: 0,
                ..counts
            })
        }
        Mark::Word | Mark::Other => Ok(counts),
    }
}

// whether the token that led here is too deep
fn is_too_deep(base: u32, mark: Mark, levels: &[Level], counts: Counts) -> bool
    requires sound { IsSound counts (reverse levels.now) }
    requires low { base + counts.depth < 2 ^ 32 }
    ensures { result ≡ too_deep base mark (state counts (reverse levels.now)) }
{
    base + counts.depth > 200
        || (is_word_mark(mark) && (is_of_nodes(levels, counts) && counts.nodes > 499))
}

/// Which token is the first that is too deep, where the depth before the first one is `base`. An error is want of
/// memory.
pub fn deep(alloc: Global, tokens: &[Token], base: u32) -> Result<Option<usize>, Memory>
    requires low { base ≤ 200 }
    ensures { IfOk result (λ place. place ≡ first_deep base start 0 (map mark_of tokens.now)) }
{
    let mut levels = Vec::new(alloc);
    let mut counts = Counts {
        outer: 0,
        depth: 0,
        proof: false,
        nodes: 0,
    };
    for (i, token) in tokens.iter().enumerate() {
        let mark = mark_of_token(token);
        counts = step(mark, &mut levels, counts)?;
        if is_too_deep(base, mark, &levels, counts) {
            return Ok(Some(i));
        }
    }
    Ok(None)
}
