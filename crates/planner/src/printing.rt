// The printed plan, line by line.
ghost use Rattle.std.specs.Prelude.{◌≡◌, [], ◌∷◌, ◌++◌, ◌<◌, map};
ghost use Rattle.topology_rules.specs.Format.{switch_count, cable_count};
ghost use Rattle.topology_rules.specs.Net.{net_of};
ghost use Rattle.topology.specs.Reasons.{number_of};
ghost use Rattle.planner_rules.specs.Table.{holder};
ghost use Rattle.planner_rules.specs.Printed.{space, refused_word, decimal, line, switch_line, link_line, printed};
ghost use Rattle.planner.specs.Room.{HasRoom};
ghost use Rattle.planner.specs.Lines.{field_text, switch_lines, link_lines};

use crate::text::Text;
use crate::tree::Tree;
use topology::Refusal;

/// A field of a line: a number in decimal digits, or a UID in 12 hexadecimal ones.
#[derive(Clone, Copy)]
enum Field {
    Number(usize),
    Uid(u64),
}

// A space and a field. Inlined with `line`, it knows at each call which kind of field it is.
#[inline(always)]
fn put_field(text: &mut Text, f: Field)
    requires { HasRoom text.old (space ∷ field_text f) }
    ensures { text.new ≡ text.old ++ space ∷ field_text f }
{
    text.push(b' ');
    match f {
        Field::Number(x) => text.decimal(x),
        Field::Uid(u) => text.hex(u),
    }
}

// A word, its fields, and the end of the line.
#[inline(always)]
fn line(text: &mut Text, word: &[u8], fs: &[Field])
    requires { HasRoom text.old (line word.now (map field_text fs.now)) }
    ensures { text.new ≡ text.old ++ line word.now (map field_text fs.now) }
{
    text.push_all(word);
    for f in fs {
        put_field(text, *f);
    }
    text.push(b'\n');
}

// Lines are put into a text from a tree; a type of both would have no fact of its own.

// The line of switch s, which has number k.
fn switch_line(text: &mut Text, tree: &Tree<'_>, s: usize, k: usize)
    requires { (s < switch_count tree.now) × (s ≡ holder (net_of tree.now) k) × HasRoom text.old (switch_line (net_of tree.now) k) }
    ensures { text.new ≡ text.old ++ switch_line (net_of tree.now) k }
{
    let fields = [
        Field::Number(k),
        Field::Uid(tree.uid(s)),
        Field::Number(tree.level(s) as usize),
        Field::Number(tree.parent_number(s) as usize),
    ];
    line(text, b"sw", &fields);
}

// The line of cable c.
fn link_line(text: &mut Text, tree: &Tree<'_>, c: usize)
    requires { (c < cable_count tree.now) × HasRoom text.old (link_line (net_of tree.now) c) }
    ensures { text.new ≡ text.old ++ link_line (net_of tree.now) c }
{
    let fields = [Field::Number(c), Field::Number(tree.up_number(c) as usize)];
    line(text, b"ln", &fields);
}

// The lines of the switches, in number order.
fn switch_lines(text: &mut Text, tree: &Tree<'_>)
    requires { HasRoom text.old (switch_lines tree.now) }
    ensures { text.new ≡ text.old ++ switch_lines tree.now }
{
    let holder = tree.holders();
    for k in 1..=tree.switches() {
        switch_line(text, tree, holder[k - 1] as usize, k);
    }
}

// The lines of the cables, in record order.
fn link_lines(text: &mut Text, tree: &Tree<'_>)
    requires { HasRoom text.old (link_lines tree.now) }
    ensures { text.new ≡ text.old ++ link_lines tree.now }
{
    for c in 0..tree.cables() {
        link_line(text, tree, c);
    }
}

/// The plan of a tree.
pub fn plan(tree: &Tree<'_>) -> Text
    ensures { result ≡ printed tree.now }
{
    let counts = [Field::Number(tree.switches()), Field::Number(tree.cables())];
    let mut text = Text::new();
    line(&mut text, b"plan", &counts);
    switch_lines(&mut text, tree);
    link_lines(&mut text, tree);
    text
}

/// The line of a refusal.
pub fn refused(refusal: Refusal) -> Text
    ensures { result ≡ line refused_word (decimal (number_of refusal.reason) ∷ decimal refusal.position ∷ []) }
{
    let fields = [
        Field::Number(u16::from(refusal.reason) as usize),
        Field::Number(refusal.position as usize),
    ];
    let mut text = Text::new();
    line(&mut text, b"refused", &fields);
    text
}
