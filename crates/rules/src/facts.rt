// What holds of every step of a party, by the rules alone. Each is what its contract says; there is nothing to run.
ghost use Rattle.rules.specs.Facts.{PostsFew, PostsInRange, BoundsKept};

// No step posts more messages than the room that a call asks for.
pub fn posts_few_stands()
    ensures { PostsFew }
{}

// Every post is in range, in the party's own name, and to a party of the ring.
pub fn posts_in_range_stands()
    ensures { PostsInRange }
{}

// What a party keeps stays in range.
pub fn bounds_kept_stands()
    ensures { BoundsKept }
{}
