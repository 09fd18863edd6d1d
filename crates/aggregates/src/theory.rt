// The theory of one key.
ghost use Rattle.aggregates.specs.KeepingUp.{SetsKeepUp};

use figures::figure::Figure;

// Whatever the figures of a set are, the results of a key that is caught up little by little are those of all its rows.
pub fn sets_keep_up<F: Figure>()
    ensures { SetsKeepUp F.Figure }
{}
