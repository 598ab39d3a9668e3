//! What follows from the definition of the cache alone.
ghost use Rattle.and_flow.specs.Newest.{AnswersNewest};

/// Law: a cache answers the newest put of a key, or nothing. So a put is forgotten as soon as the key is put anew, and no older one ever answers.
pub fn caches_answer_the_newest()
    ensures { AnswersNewest }
{}
