// What a call answered, and the same as the line gives it.
use crate::fault::Fault;
use crate::lent::{Element, holds};
use crate::line::Line;
use crate::part::Part;
use scope::Counts;

#[derive(Clone, Copy)]
pub struct Answer {
    pub refusal: u32,
    // None where the call answers none.
    pub counts: Option<Counts>,
    // The numbers after the refusal.
    pub values: [u64; 5],
    // The first part that is not what the call filled or left.
    pub differs: Option<Part>,
}

impl Answer {
    pub fn new(refusal: u32, values: [u64; 5]) -> Answer {
        Answer {
            refusal,
            counts: None,
            values,
            differs: None,
        }
    }

    pub fn with_counts(self, counts: Counts) -> Answer {
        Answer {
            counts: Some(counts),
            ..self
        }
    }

    // A slice that was lent, which must hold what the line's part says.
    pub fn filled<T: Element>(self, part: Part, slice: &[T], line: &Line) -> Answer {
        if self.differs.is_some() || holds(slice, line.part(part)) {
            return self;
        }
        Answer {
            differs: Some(part),
            ..self
        }
    }

    // What of it is not as the line says.
    pub fn check(&self, line: &Line, before: Counts) -> Result<(), Fault> {
        if self.refusal != line.given(0) {
            return Err(Fault::Refusal);
        }
        for (i, value) in (1..=5).zip(self.values) {
            if value != u64::from(line.given(i)) {
                return Err(Fault::Value(i));
            }
        }
        let after = self.counts.unwrap_or(before);
        if numbers(after) != numbers(line.counts_after(before)) {
            return Err(Fault::Differs(Part::Counts));
        }
        self.differs
            .map_or(Ok(()), |part| Err(Fault::Differs(part)))
    }
}

// The six counts in their order.
pub fn numbers(c: Counts) -> [u32; 6] {
    [c.capacity, c.user, c.global, c.solver, c.used, c.next]
}
