// Expressions, computed while they are read.
ghost use Rattle.std.specs.Prelude.{◌≡◌, ◌∷◌, option_map, IfOk, reverse};
ghost use Rattle.uu_map.specs.Expression.{kept, sum_of, product_of, quotient_of, negated, cost_of_value};
ghost use Rattle.uu_map.specs.Statement.{most_depth};
ghost use Rattle.uu_map.specs.Token.{tokens};
ghost use Rattle.uu_map.specs.Internal.Reading.{sum_with, product_with, negated_if, flipped, one_less, fresh, run, start};

use crate::entry::Cost;
use crate::token::{Additive, LIMIT, Multiplicative, Token, next_token};
use std::alloc::{AllocError, Global};

/// How deep parentheses and signs may nest.
const DEPTH: u32 = 32;

/// What was read between two parentheses, up to the part that is being read.
#[derive(Clone, Copy)]
pub(crate) struct Level {
    /// The sum so far, with the operator after it.
    sum: Option<(Option<i64>, Additive)>,
    /// The product so far, with the operator after it.
    product: Option<(Option<i64>, Multiplicative)>,
    /// The signs before the next factor make it negative.
    negative: bool,
    /// How much deeper the next factor may nest.
    room: u32,
    /// How much deeper each factor of this level may nest before its signs.
    base: u32,
}

/// What comes next.
#[derive(Clone, Copy)]
pub(crate) enum Stage {
    /// A factor.
    Operand,
    /// An operator or a closing parenthesis, after a product of this value.
    Operator(Option<i64>),
    /// Nothing: the expression has this value.
    Done(Option<i64>),
}

/// How far an expression has been read.
#[derive(Drop)]
pub(crate) struct Reading {
    /// The levels whose parenthesis is open, the innermost last.
    outer: Vec<Level>,
    level: Level,
    stage: Stage,
    /// The symbol `DEAD` was read.
    dead: bool,
}

fn kept(value: i64) -> Option<i64>
    ensures { result ≡ kept value }
{
    if value.unsigned_abs() <= LIMIT {
        Some(value)
    } else {
        None
    }
}

fn sum_of(op: Additive, x: i64, y: i64) -> Option<i64>
    ensures { result ≡ sum_of op x y }
{
    match op {
        Additive::Plus => kept(x.checked_add(y)?),
        Additive::Minus => kept(x.checked_sub(y)?),
    }
}

fn quotient_of(x: i64, y: i64) -> Option<i64>
    ensures { result ≡ quotient_of x y }
{
    kept(x.checked_div(y)?)
}

fn product_of(op: Multiplicative, x: i64, y: i64) -> Option<i64>
    ensures { result ≡ product_of op x y }
{
    match op {
        Multiplicative::Times => kept(x.checked_mul(y)?),
        Multiplicative::Over => quotient_of(x, y),
    }
}

fn negated(value: Option<i64>) -> Option<i64>
    ensures { result ≡ negated value }
{
    kept(value?.checked_neg()?)
}

fn sum_with(sum: Option<(Option<i64>, Additive)>, value: Option<i64>) -> Option<i64>
    ensures { result ≡ sum_with sum value }
{
    match sum {
        None => value,
        Some((left, op)) => sum_of(op, left?, value?),
    }
}

fn product_with(product: Option<(Option<i64>, Multiplicative)>, value: Option<i64>) -> Option<i64>
    ensures { result ≡ product_with product value }
{
    match product {
        None => value,
        Some((left, op)) => product_of(op, left?, value?),
    }
}

fn negated_if(negative: bool, value: Option<i64>) -> Option<i64>
    ensures { result ≡ negated_if negative value }
{
    if negative { negated(value) } else { value }
}

fn flipped(op: Additive, negative: bool) -> bool
    ensures { result ≡ flipped op negative }
{
    match op {
        Additive::Plus => negative,
        Additive::Minus => !negative,
    }
}

fn one_less(room: u32) -> Option<u32>
    ensures { result ≡ one_less room }
{
    room.checked_sub(1)
}

fn fresh(room: u32) -> Level
    ensures { result ≡ fresh room }
{
    Level {
        sum: None,
        product: None,
        negative: false,
        room,
        base: room,
    }
}

fn cost_of_value(value: i64) -> Cost
    ensures { result ≡ cost_of_value value }
{
    Cost::Value(u64::try_from(value).unwrap_or(0))
}

impl Reading {
    ghost use Rattle.uu_map.specs.Internal.Reading.{reading_state, with_factor, at_operand, closed, at_operator, step, finish};

    fn new(alloc: Global) -> Reading
        ensures { reading_state result ≡ start most_depth }
    {
        Reading {
            outer: Vec::new(alloc),
            level: fresh(DEPTH),
            stage: Stage::Operand,
            dead: false,
        }
    }

    // The reading after a factor of this value.
    fn with_factor(outer: Vec<Level>, level: Level, dead: bool, value: Option<i64>) -> Reading
        ensures { reading_state result ≡ with_factor (reverse outer.items) level dead value }
    {
        let value = product_with(level.product, negated_if(level.negative, value));
        let level = Level {
            product: None,
            negative: false,
            room: level.base,
            ..level
        };
        Reading {
            outer,
            level,
            stage: Stage::Operator(value),
            dead,
        }
    }

    // The reading after an opening parenthesis.
    fn opened(
        mut outer: Vec<Level>,
        level: Level,
        dead: bool,
        room: u32,
    ) -> Result<Reading, AllocError>
        ensures { IfOk result (λ r. reading_state r ≡ record { outer = level ∷ reverse outer.items; level = fresh room; stage = Stage.Operand; dead = dead }) }
    {
        outer.push(level)?;
        Ok(Reading {
            outer,
            level: fresh(room),
            stage: Stage::Operand,
            dead,
        })
    }

    // Takes a token where an operand is expected.
    fn at_operand(
        outer: Vec<Level>,
        level: Level,
        dead: bool,
        token: Token,
    ) -> Result<Option<Reading>, AllocError>
        ensures { IfOk result (λ r. option_map reading_state r ≡ at_operand (reverse outer.items) level dead token) }
    {
        match token {
            Token::Amount(value) => {
                let value = value.and_then(kept);
                Ok(Some(Reading::with_factor(outer, level, dead, value)))
            }
            Token::Dead => Ok(Some(Reading::with_factor(outer, level, true, None))),
            Token::Open => match one_less(level.room) {
                None => Ok(None),
                Some(room) => Ok(Some(Reading::opened(outer, level, dead, room)?)),
            },
            Token::Additive(op) => match one_less(level.room) {
                None => Ok(None),
                Some(room) => {
                    let level = Level {
                        negative: flipped(op, level.negative),
                        room,
                        ..level
                    };
                    Ok(Some(Reading {
                        outer,
                        level,
                        stage: Stage::Operand,
                        dead,
                    }))
                }
            },
            Token::Close | Token::Multiplicative(_) | Token::Other => Ok(None),
        }
    }

    // The reading after the parenthesis that closes a sum of this value.
    fn closed(mut outer: Vec<Level>, level: Level, dead: bool, value: Option<i64>) -> Reading
        ensures { reading_state result ≡ closed (reverse outer.items) level dead value }
    {
        match outer.pop() {
            None => Reading {
                outer,
                level,
                stage: Stage::Done(value),
                dead,
            },
            Some(around) => Reading::with_factor(outer, around, dead, value),
        }
    }

    // Takes a token after a product of this value.
    fn at_operator(
        outer: Vec<Level>,
        level: Level,
        dead: bool,
        value: Option<i64>,
        token: Token,
    ) -> Option<Reading>
        ensures { option_map reading_state result ≡ at_operator (reverse outer.items) level dead value token }
    {
        let level = match token {
            Token::Additive(op) => Level {
                sum: Some((sum_with(level.sum, value), op)),
                ..level
            },
            Token::Multiplicative(op) => Level {
                product: Some((value, op)),
                ..level
            },
            Token::Close => {
                let value = sum_with(level.sum, value);
                return Some(Reading::closed(outer, level, dead, value));
            }
            Token::Amount(_) | Token::Dead | Token::Open | Token::Other => return None,
        };
        Some(Reading {
            outer,
            level,
            stage: Stage::Operand,
            dead,
        })
    }

    // Takes the next token, or refuses it.
    fn step(self, token: Token) -> Result<Option<Reading>, AllocError>
        ensures { IfOk result (λ r. option_map reading_state r ≡ step (reading_state self) token) }
    {
        let Reading {
            outer,
            level,
            stage,
            dead,
        } = self;
        match stage {
            Stage::Operand => Reading::at_operand(outer, level, dead, token),
            Stage::Operator(value) => Ok(Reading::at_operator(outer, level, dead, value, token)),
            Stage::Done(_) => Ok(None),
        }
    }

    // What the expression costs, if all of it was read.
    fn finish(&self) -> Option<Cost>
        ensures { result ≡ finish self.now.dead self.now.stage }
    {
        match self.stage {
            Stage::Done(_) if self.dead => Some(Cost::Dead),
            Stage::Done(value) => Some(cost_of_value(value?)),
            _ => None,
        }
    }
}

/// The cost of an expression that begins after its opening parenthesis and ends with the closing
/// one, or `None` if the text isn't such an expression.
pub(crate) fn cost(alloc: Global, text: &[u8]) -> Result<Option<Cost>, AllocError>
    ensures { IfOk result (λ cost. cost ≡ run (start most_depth) (tokens text.now)) }
{
    let mut reading = Reading::new(alloc);
    let mut rest = text;
    while let Some((token, after)) = next_token(rest) {
        let Some(next) = reading.step(token)? else {
            return Ok(None);
        };
        reading = next;
        rest = after;
    }
    Ok(reading.finish())
}
