// Votes, and the fields of a record that they move.
ghost use Rattle.std.specs.Prelude.{◌≡◌, ◌+◌};
ghost use Rattle.messages.specs.Kinds.{kind_number};
ghost use Rattle.rows.specs.Votes.{vote_number, field_number};

use messages::kind::Kind;

// What a sender votes by, once a view.
#[derive(Clone, Copy, PartialEq, Eq, Debug)]
pub enum Vote {
    Echo,
    Key1,
    Key2,
    Key3,
    Lock,
}

impl Vote {
    // The kind of the message that carries the vote.
    pub fn kind(self) -> Kind
        ensures { kind_number result ≡ vote_number self }
    {
        match self {
            Vote::Echo => Kind::Echo,
            Vote::Key1 => Kind::Key1,
            Vote::Key2 => Kind::Key2,
            Vote::Key3 => Kind::Key3,
            Vote::Lock => Kind::Lock,
        }
    }
}

// A field of the record that moves to the view once a quorum has voted.
#[derive(Clone, Copy, PartialEq, Eq, Debug)]
pub enum Field {
    Key1,
    Key2,
    Key3,
    Lock,
}

impl Field {
    // The vote by which a party tells that the field has moved.
    pub fn vote(self) -> Vote
        ensures { vote_number result ≡ field_number self }
    {
        match self {
            Field::Key1 => Vote::Key1,
            Field::Key2 => Vote::Key2,
            Field::Key3 => Vote::Key3,
            Field::Lock => Vote::Lock,
        }
    }

    // The vote whose quorum moves the field.
    pub fn cause(self) -> Vote
        ensures { vote_number result + 1 ≡ field_number self }
    {
        match self {
            Field::Key1 => Vote::Echo,
            Field::Key2 => Vote::Key1,
            Field::Key3 => Vote::Key2,
            Field::Lock => Vote::Key3,
        }
    }
}
