// What a sound deck yields.
use decks::Deck;
use plants::Plant;
use std::io;

// The worked example with modes 4, a counter to 3 that 0 counts up and 1 counts down, and three plays.
const TEXT: &[u8] = b"01030200000004
02010000000100000004
02020000000200000004
0300040000000007
0400000001
0400000102
0400000203
0400010203
0400020203
05000103
0301020000000007
0401000001
0401000101
0401010201
0602
0600
0602
";

// Prints the parts of the deck, with the steps of the plant from its first state on each event.
pub fn print_parts(rt: &HostRuntime) -> io::Result<()> {
    let Ok(deck) = Deck::read(rt.alloc(), TEXT) else {
        return println!(rt; "no deck");
    };
    numbers(rt, &deck)?;
    machines(rt, &deck)?;
    println!(rt; "plays: {:?}", deck.plays)
}

fn numbers(rt: &HostRuntime, deck: &Deck) -> io::Result<()> {
    println!(rt;
        "events: {}, sites: {}, modes: {}",
        deck.events, deck.sites, deck.modes
    )?;
    println!(rt; "seen: {:?}, controlled: {:?}", deck.seen, deck.controlled)
}

fn machines(rt: &HostRuntime, deck: &Deck) -> io::Result<()> {
    println!(rt;
        "plant: {} states, alphabet {}",
        deck.plant.count(),
        deck.plant.alphabet()
    )?;
    for event in 0..deck.events {
        let next = deck.plant.step(deck.plant.first(), event);
        println!(rt; "plant on {event}: {next:?}")?;
    }
    println!(rt;
        "specification: {} states, from 1 on 2: {:?}",
        deck.spec.count(),
        deck.spec.step(1, 2)
    )
}
