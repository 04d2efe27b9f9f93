//! The marks of one end of a channel: which controllers offer it, and at which of their branches first.

ghost use Rattle.std.specs.Prelude.{◌≡◌, ◌≤◌, length, vec_capacity, IfOk, IfErr};
ghost use Rattle.cb_offers.specs.Marks.{put_mark, take_mark, IsHere, IsGap};

/// A controller that offers this end of the channel.
#[derive(Clone, Copy, Debug)]
pub struct Mark {
    /// Its number.
    pub controller: u32,
    /// The first of its branches that does.
    pub branch: u32,
}

// Where the controller's mark stands, or where it would go. A list is mostly of one mark.
fn find(marks: &[Mark], controller: u32) -> Result<usize, usize>
    ensures here { IfOk result (IsHere controller marks.now) }
    ensures gap { IfErr result (IsGap controller marks.now) }
{
    for (at, mark) in marks.iter().enumerate() {
        if controller < mark.controller {
            return Err(at);
        }
        if controller == mark.controller {
            return Ok(at);
        }
    }
    Err(marks.len())
}

/// Puts the mark in the order of controllers, unless its controller has one. It takes no memory.
pub fn put(marks: &mut Vec<Mark>, mark: Mark)
    requires { length (put_mark mark marks.old.items) ≤ vec_capacity marks.old }
    ensures items { marks.new.items ≡ put_mark mark marks.old.items }
    ensures room { vec_capacity marks.old ≤ vec_capacity marks.new }
{
    match find(marks, mark.controller) {
        Ok(_) => {}
        Err(at) => match marks.insert(at, mark) {
            Ok(()) => {}
            Err(_) => unreachable!(),
        },
    }
}

/// Takes the mark out, if it is there.
pub fn take(marks: &mut Vec<Mark>, mark: Mark)
    ensures items { marks.new.items ≡ take_mark mark marks.old.items }
    ensures room { vec_capacity marks.old ≤ vec_capacity marks.new }
{
    match find(marks, mark.controller) {
        Ok(at) => {
            if marks[at].branch == mark.branch {
                let _mark = marks.remove(at);
            }
        }
        Err(_) => {}
    }
}
