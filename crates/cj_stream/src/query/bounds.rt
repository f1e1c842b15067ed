//! The box of a query.
ghost use Rattle.std.specs.Prelude.{◌≡◌, ◌∷◌, [], Some, None, Ok, Err, if◌then◌else◌, MatchOption, MatchResult, length};
ghost use Rattle.std.specs.Prelude.{◌≢◌, int_lt};
ghost use Rattle.cj_stream.specs.BoxText.{fields, is_number, is_edge, edge, box_text};
ghost use Rattle.cj_stream.specs.Query.{box_of};
ghost use Rattle.cj_stream.specs.declared.query.fault.QueryFault.TheVariants.{BadBox};

use crate::query::fault::QueryFault;
use cj_decimal::{Decimal, DecimalFault, Fixed18};

/// A box in the plane, with its edges.
#[derive(Clone, Copy, Debug, PartialEq, Eq)]
pub struct Bounds {
    pub min_x: Fixed18,
    pub min_y: Fixed18,
    pub max_x: Fixed18,
    pub max_y: Fixed18,
}

/// Returns the fields of a text if there are four.
fn four_fields(text: &str) -> Option<(&str, &str, &str, &str)>
    ensures { MatchOption result
        (length (fields text.now) ≢ 4)
        (λ f. fields text.now ≡ f.0.now ∷ f.1.now ∷ f.2.now ∷ f.3.now ∷ []) }
{
    let mut fields = text.split(',');
    let min_x = fields.next()?;
    let min_y = fields.next()?;
    let max_x = fields.next()?;
    let max_y = fields.next()?;
    match fields.next() {
        Some(_) => None,
        None => Some((min_x, min_y, max_x, max_y)),
    }
}

/// Returns the number of a field if it can be an edge.
fn read_edge(field: &str) -> Result<Option<Fixed18>, QueryFault>
    ensures { result
        ≡ (if is_number field.now then Ok (if is_edge field.now then Some (edge field.now) else None) else Err BadBox) }
{
    match Decimal::read(field.as_bytes()) {
        Ok(number) => Ok(number.fixed18()),
        Err(DecimalFault::NumberRange) => Ok(None),
        Err(DecimalFault::NotANumber) => Err(QueryFault::BadBox),
    }
}

/// Returns whether an edge is below another.
fn is_below(edge: Fixed18, other: Fixed18) -> bool
    ensures { result ≡ int_lt edge other }
{
    edge.units() < other.units()
}

impl Bounds {
    /// Reads a box, `minx,miny,maxx,maxy`.
    ///
    /// # Errors
    ///
    /// The first that applies of `BadBox`, `BoxRange` and `EmptyBox`.
    pub fn read(text: &str) -> Result<Bounds, QueryFault>
        ensures { MatchResult result
            (λ bounds. box_text text.now ≡ Ok (box_of bounds))
            (λ fault. box_text text.now ≡ Err fault) }
    {
        let Some((min_x, min_y, max_x, max_y)) = four_fields(text) else {
            return Err(QueryFault::BadBox);
        };
        let min_x = read_edge(min_x)?;
        let min_y = read_edge(min_y)?;
        let max_x = read_edge(max_x)?;
        let max_y = read_edge(max_y)?;
        let (Some(min_x), Some(min_y), Some(max_x), Some(max_y)) = (min_x, min_y, max_x, max_y)
        else {
            return Err(QueryFault::BoxRange);
        };
        if is_below(max_x, min_x) || is_below(max_y, min_y) {
            return Err(QueryFault::EmptyBox);
        }
        Ok(Bounds {
            min_x,
            min_y,
            max_x,
            max_y,
        })
    }
}
