// The refusals of actions, 6 to 12 in the table of refusals, and the rows 7 to 10 that several kinds share: a function for the kinds of each
// list of rows returns the refusal of the first row that applies, or where the records stand that an accepted action names.
ghost use Rattle.std.specs.Prelude.{◌≡◌, true, cond, ◌||◌, [], eqb, IfOk};
ghost use Rattle.layout.specs.Bits.{has_bit};
ghost use Rattle.model.specs.State.{user_at};
ghost use Rattle.model.specs.Lookups.{user_slot, post_place, pending_place};
ghost use Rattle.model.specs.Refusals.{first_number, right_of, lacks_right, after_login, post_rows, user_rows, pending_rows};
ghost use Rattle.access.specs.SoundBoards.{state_of};
ghost use Rattle.access.specs.Rights.{enum_right, StandsAt, is_post_kind, is_pending_kind};
ghost use Rattle.access.specs.Refusals.{refusal_number, result_number};

use crate::sound_board::SoundBoard;
use crate::tables::Table;
use reader::Login;

// Why an action is refused, by the number that is returned.
#[derive(Clone, Copy, PartialEq, Eq, Debug)]
pub enum Refusal {
    // users where there may be none, or none where some must be
    WrongStart = 6,
    WrongLogin = 7,
    NotAdmin = 8,
    Missing = 9,
    NotEntitled = 10,
    AlreadyThere = 11,
    Full = 12,
}

impl From<Refusal> for u16 {
    ghost from_gives = { λ refusal number. number ≡ refusal_number refusal };

    fn from(refusal: Refusal) -> u16 {
        refusal as u16
    }
}

// What a kind asks of a sender who is registered and has given the right password.
#[derive(Clone, Copy)]
pub enum Right {
    Admin,
    Owner,
    Reader,
    Friend,
    Unrestricted,
}

// "0202, 0502, 0601: U not the admin", "0402 to 0405: not the owner; 0504 to 0507, 0606: not entitled". The kind stays the number that it is in a
// message, so that it can be matched over ranges, as the bureau wants it.
pub fn right_of(kind: u16) -> Right
    ensures { enum_right result ≡ right_of kind }
{
    match kind {
        0x0202 => Right::Admin,
        0x0402..=0x0405 => Right::Owner,
        0x0502 => Right::Admin,
        0x0504..=0x0507 => Right::Reader,
        0x0601 => Right::Admin,
        0x0606 => Right::Friend,
        _ => Right::Unrestricted,
    }
}

// Refuses a sender who is not entitled.
fn require(entitled: bool, refusal: Refusal) -> Result<(), Refusal>
    ensures { result_number result ≡ cond entitled 0 (refusal_number refusal) }
{
    if entitled { Ok(()) } else { Err(refusal) }
}

impl<'a> SoundBoard<'a> {
    // "0606 .. V, where V is U or a friend of U", by numbers and slots
    fn may_list(&self, u: u32, v: u32, i: usize, j: usize) -> bool
        ensures { result ≡ (eqb u v || has_bit (user_at (state_of self.now) i).friends j) }
    {
        u == v || self.are_friends(i, j)
    }

    // The refusal of u, in slot i, without the right to x, a post or another user, at place k. Numbers and places apart, since some rights look at numbers
    // alone and some at neither.
    pub fn check_right(
        &self,
        right: Right,
        u: u32,
        x: u32,
        i: usize,
        k: usize,
    ) -> Result<(), Refusal>
        requires { (i ≡ user_slot (state_of self.now) u) × StandsAt (enum_right right) (state_of self.now) x k }
        ensures { result_number result ≡ first_number (lacks_right (state_of self.now) (enum_right right) u x) }
    {
        match right {
            Right::Admin => require(self.is_admin(u), Refusal::NotAdmin),
            Right::Owner => require(self.is_owner(i, k), Refusal::NotEntitled),
            Right::Reader => require(self.may_read(i, k), Refusal::NotEntitled),
            Right::Friend => require(self.may_list(u, x, i, k), Refusal::NotEntitled),
            Right::Unrestricted => Ok(()),
        }
    }

    // The slot of a sender who is registered and has given the right password: "U not registered or P wrong".
    pub fn log_in(&self, login: Login) -> Result<usize, Refusal>
        ensures number { result_number result ≡ first_number (after_login (state_of self.now) login.user login.password []) }
        ensures slot { IfOk result (λ i. i ≡ user_slot (state_of self.now) login.user) }
    {
        let i = self
            .find(Table::Users, login.user)
            .ok_or(Refusal::WrongLogin)?;
        if self.user_password(i) != login.password {
            return Err(Refusal::WrongLogin);
        }
        Ok(i)
    }

    // Kinds with a post (0402 to 0405, 0504 to 0508): its place, for a sender with the right to it. By the kind, as `right_of` has it.
    pub fn permitted_post(&self, kind: u16, login: Login, n: u32) -> Result<usize, Refusal>
        requires { is_post_kind kind ≡ true }
        ensures number { result_number result ≡ first_number (post_rows (state_of self.now) kind login.user login.password n) }
        ensures place { IfOk result (λ place. place ≡ post_place (state_of self.now) n) }
    {
        let i = self.log_in(login)?;
        let place = self.find(Table::Posts, n).ok_or(Refusal::Missing)?;
        self.check_right(right_of(kind), login.user, n, i, place)?;
        Ok(place)
    }

    // Kinds with another user (0204, 0205, 0301, 0501, 0509, 050A, 0606), up to "V not registered": the slots of both. The functions of the
    // kinds test the rows behind it.
    pub fn log_in_with(&self, login: Login, v: u32) -> Result<(usize, usize), Refusal>
        ensures number { result_number result ≡ first_number (user_rows (state_of self.now) login.user login.password v []) }
        ensures slots { IfOk result (λ slots. (slots.0 ≡ user_slot (state_of self.now) login.user) × (slots.1 ≡ user_slot (state_of self.now) v)) }
    {
        let i = self.log_in(login)?;
        let j = self.find(Table::Users, v).ok_or(Refusal::Missing)?;
        Ok((i, j))
    }

    // Kinds for the admin with a pending registration (0202, 0502), up to "not pending": its place. The functions of the kinds test the rows
    // behind it. The right of the admin looks at no place.
    pub fn permitted_pending(&self, kind: u16, login: Login, v: u32) -> Result<usize, Refusal>
        requires { is_pending_kind kind ≡ true }
        ensures number { result_number result ≡ first_number (pending_rows (state_of self.now) kind login.user login.password v []) }
        ensures place { IfOk result (λ place. place ≡ pending_place (state_of self.now) v) }
    {
        let sender = self.log_in(login)?;
        self.check_right(right_of(kind), login.user, v, sender, 0)?;
        self.find(Table::Pending, v).ok_or(Refusal::Missing)
    }
}
