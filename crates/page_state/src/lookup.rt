//! Searches among all pages.

ghost use Rattle.std.specs.Prelude.{◌≡◌, ◌&&◌, not, Some, IsSome};
ghost use Rattle.std.specs.List.{list_any};
ghost use Rattle.machine.specs.Tree.{under};
ghost use Rattle.machine.specs.Slots.{there_and};
ghost use Rattle.machine.specs.Pages.{Page, page_at, is_anon, is_charged, charged_file};
ghost use Rattle.machine.specs.Lists.{kind_at};

use group_tree::Tree;
use machine::id::{GroupId, PageId};
use machine::record::Kind;
use pages::Pages;

/// How many pages of files are charged to the group or below it.
pub fn file_usage(pages: &Pages, tree: &Tree, group: GroupId) -> u64
    ensures { result ≡ charged_file tree.now pages.now.pages group.0 }
{
    pages.are_numbered();
    let mut many = 0;
    for number in 0..pages.numbers() {
        if is_file_under(PageId(number), pages, tree, group) {
            many += 1;
        }
    }
    many
}

/// Whether the page exists, holds a page of a file, has a frame, and is of a group at or under this one.
fn is_file_under(page: PageId, pages: &Pages, tree: &Tree, group: GroupId) -> bool
    ensures { result ≡ there_and (λ page. is_charged tree.now group.0 page && not (is_anon page.content)) (page_at pages.now.pages page.0) }
{
    pages.are_filed();
    match pages.kind(page) {
        Some(Kind::File) => is_under(page, pages, tree, group),
        _ => false,
    }
}

/// Whether one of the pages is of a group at or under the target.
pub fn is_any_under(queue: &[PageId], pages: &Pages, tree: &Tree, target: GroupId) -> bool
    ensures { result ≡ list_any (λ page. there_and (λ page. under tree.now target.0 page.group) (page_at pages.now.pages page.0)) queue.now }
{
    for page in queue {
        if is_under(*page, pages, tree, target) {
            return true;
        }
    }
    false
}

/// Whether the page exists, and is of a group at or under the target.
fn is_under(page: PageId, pages: &Pages, tree: &Tree, target: GroupId) -> bool
    ensures { result ≡ there_and (λ page. under tree.now target.0 page.group) (page_at pages.now.pages page.0) }
{
    match pages.group(page) {
        Some(group) => tree.is_under(target, group),
        None => false,
    }
}
