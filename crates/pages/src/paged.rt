// A song whose pages can be written.
ghost use Rattle.pages.specs.Page.{Chorded};
ghost use Rattle.pages.specs.Writable.{Paged};

use composer::form::Form;
use composer::score::Score;

// A song and its form, of which any bar's page can be written. Its methods stand where they are needed: the runs of a
// lane's events in lane, the hits that a page has in hits, and the page in page.
#[derive(Clone, Copy)]
pub(crate) struct PagedSong<'a> {
    pub score: &'a Score,
    pub form: &'a Form,
    ghost paged: { Paged score.now },
    ghost chorded: { Chorded score.now },
}
