use farkas_check::Flaw;

/// The first part that an event lacks. Each kind of event is tested for its own parts, in this order.
#[derive(Clone, Copy, PartialEq, Eq, Debug)]
pub enum Broken {
    /// No class has the place.
    Class,
    /// The class is ranked by an event; for a commit, it is eliminated.
    Ranked,
    /// The combination doesn't prove the verdict.
    Flaw(Flaw),
    /// The class was issued before.
    Asked,
    /// Four or more questions are open.
    Full,
    /// An earlier class is neither ranked by an event nor issued.
    Earlier,
    /// The two vectors don't open the class.
    Vectors,
    /// The question isn't open.
    Question,
    /// The point doesn't meet the answers with the new one.
    Point,
    /// The question's class isn't eliminated.
    Unranked,
    /// There is no answer, or the last one has another number.
    Nothing,
    /// So many answers were withdrawn that the history may grow too long.
    Spent,
}
