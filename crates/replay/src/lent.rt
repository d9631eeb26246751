// The slices that a call is lent, in arrays on the stack, since memory is fixed as in the libraries. The calls are not compiled into what makes
// them: each then needs the stack for its own arrays alone.
use crate::line::ELEMENTS;

// An element of a slice that is lent.
pub trait Element: Copy + Into<u64> {
    // What it holds before the call.
    const BLANK: Self;

    // A number that it can hold.
    fn narrow(n: u64) -> Self;
}

impl Element for u8 {
    const BLANK: u8 = 0xa5;

    fn narrow(n: u64) -> u8 {
        (n % 256) as u8
    }
}

impl Element for u32 {
    const BLANK: u32 = 0xa5a5a5a5;

    fn narrow(n: u64) -> u32 {
        (n % 4294967296) as u32
    }
}

impl Element for u64 {
    const BLANK: u64 = 0xa5a5a5a5a5a5a5a5;

    fn narrow(n: u64) -> u64 {
        n
    }
}

// What a slice to lend is cut from.
pub fn blank<T: Element>() -> [T; ELEMENTS] {
    [T::BLANK; ELEMENTS]
}

// The numbers of a part as a call takes them, of which a line that fits has no more than there is room.
pub fn narrowed<'a, T: Element>(said: &[u64], room: &'a mut [T]) -> &'a [T] {
    for (word, n) in room.iter_mut().zip(said) {
        *word = T::narrow(*n);
    }
    room.get(..said.len()).unwrap_or(&[])
}

// Whether the slice begins with what the line says, and past it holds what it held before the call.
pub fn holds<T: Element>(slice: &[T], said: &[u64]) -> bool {
    let Some((filled, others)) = slice.split_at_checked(said.len()) else {
        return false;
    };
    let before: u64 = T::BLANK.into();
    filled.iter().map(|x| (*x).into()).eq(said.iter().copied())
        && others.iter().all(|x| (*x).into() == before)
}
