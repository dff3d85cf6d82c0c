//! The order in which the servers of a service are tried (RFC 2782).

ghost use Rattle.std.specs.Prelude.{◌≡◌, ◌<◌, ◌≤◌, ◌^◌, length, OnOk, OnErr};
ghost use Rattle.resolv_lookup.specs.Order.{weight_with, pick, place_reaching, place_picked, picked_first, drawn, IsSortOf, IsOrder, behind};

use crate::srv_item::SrvItem;
use client_request::Words;
use dns_base::NoMemory;

/// Sorts the items by priority and weight, stably, and then draws the item for each place by a word.
/// After `NoMemory` they stand as before, and no word was drawn.
pub(crate) fn order<W: Words>(items: &mut Vec<SrvItem>, words: &mut W) -> Result<(), NoMemory>
    ensures ordered { OnOk result (IsOrder (W.stream words.old) items.old.items items.new.items) }
    ensures drawn { OnOk result (W.stream words.new ≡ behind (length items.old.items) (W.stream words.old)) }
    ensures items { OnErr result (items.new.items ≡ items.old.items) }
    ensures none_drawn { OnErr result (W.stream words.new ≡ W.stream words.old) }
{
    sort(items)?;
    draw(items, words);
    Ok(())
}

/// Sorts the items by priority and weight. After `NoMemory` they stand as before.
fn sort(items: &mut Vec<SrvItem>) -> Result<(), NoMemory>
    ensures sorted { OnOk result (IsSortOf items.old.items items.new.items) }
    ensures err { OnErr result (items.new.items ≡ items.old.items) }
{
    items.sort_by_key(|item| (item.srv().priority, item.srv().weight))?;
    Ok(())
}

/// Draws the item for each place, of those of its priority that are left, by a word.
fn draw<W: Words>(items: &mut [SrvItem], words: &mut W)
    ensures items { items.new ≡ drawn (W.stream words.old) (length items.old) items.old }
    ensures words { W.stream words.new ≡ behind (length items.old) (W.stream words.old) }
{
    for place in 0..items.len() {
        let word = words.next();
        pick_first(&mut items[place..], word);
    }
}

/// Lets the item that a word picks change places with the first.
fn pick_first(items: &mut [SrvItem], word: u64)
    requires { 0 < length items.old }
    ensures { items.new ≡ picked_first word items.old }
{
    let place = place_picked(items, word);
    items.swap(0, place);
}

/// The place of the item that a word picks, among those that have the priority of the first.
fn place_picked(items: &[SrvItem], word: u64) -> usize
    requires { 0 < length items.now }
    ensures place { result ≡ place_picked word items.now }
    ensures within { result < length items.now }
{
    let weight = weight_with(items[0].srv().priority, items);
    place_reaching(pick(word, weight), items)
}

/// The weights of the items at the front that have a priority.
fn weight_with(priority: u16, items: &[SrvItem]) -> u128
    ensures weight { result ≡ weight_with priority items.now }
    ensures bounded { result < 2 ^ 80 }
{
    let mut weight = 0;
    for item in items {
        if item.srv().priority != priority {
            break;
        }
        weight += u128::from(item.srv().weight);
    }
    weight
}

/// A number up to the sum of the weights: of as many equal parts of the words, the one that has this word.
fn pick(word: u64, weight: u128) -> u128
    requires { weight < 2 ^ 80 }
    ensures picked { result ≡ pick word weight }
    ensures within { result ≤ weight }
{
    const WORDS: u128 = 1 << 64;
    let word = u128::from(word);
    let parts = weight + 1;
    word * (parts / WORDS) + word * (parts % WORDS) / WORDS
}

/// The place of the first item at which the running sum of the weights reaches a number.
fn place_reaching(number: u128, items: &[SrvItem]) -> usize
    ensures { result ≡ place_reaching number items.now }
{
    let mut left = number;
    for (place, item) in items.iter().enumerate() {
        let weight = u128::from(item.srv().weight);
        if left <= weight {
            return place;
        }
        left -= weight;
    }
    items.len()
}
