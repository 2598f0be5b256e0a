// Who is the admin, and the rows and rights of users and posts, by the slots and places where they stand.
ghost use Rattle.std.specs.Prelude.{◌≡◌, eqb};
ghost use Rattle.layout.specs.Bits.{has_bit};
ghost use Rattle.model.specs.State.{is_admin, user_at, post_at};
ghost use Rattle.access.specs.SoundBoards.{state_of};
ghost use Rattle.access.specs.Rights.{may_read_at};

use crate::sound_board::SoundBoard;
use crate::tables::Table;
use layout::bits::has_bit;

impl<'a> SoundBoard<'a> {
    // "Slot 0 is the admin."
    pub fn is_admin(&self, u: u32) -> bool
        ensures { result ≡ is_admin (state_of self.now) u }
    {
        self.count(Table::Users) != 0 && self.user_number(0) == u
    }

    // Whether slot j is a friend of slot i. A method for each row, as for each field.
    pub fn are_friends(&self, i: usize, j: usize) -> bool
        ensures { result ≡ has_bit (user_at (state_of self.now) i).friends j }
    {
        has_bit(self.user_friends(i), j)
    }

    // Whether slot j has requested slot i.
    pub fn has_requested(&self, i: usize, j: usize) -> bool
        ensures { result ≡ has_bit (user_at (state_of self.now) i).requests j }
    {
        has_bit(self.user_requests(i), j)
    }

    // Whether slot i owns the post at a place.
    pub(crate) fn is_owner(&self, i: usize, place: usize) -> bool
        ensures { result ≡ eqb (post_at (state_of self.now) place).owner i }
    {
        self.post_owner(place) == i
    }

    // "for the owner, the owner's friends and, if the post is public, every registered user"
    pub(crate) fn may_read(&self, i: usize, place: usize) -> bool
        ensures { result ≡ may_read_at (state_of self.now) i place }
    {
        self.is_owner(i, place)
            || self.are_friends(i, self.post_owner(place))
            || self.post_visibility(place) == 1
    }
}
