ghost use Rattle.std.specs.Prelude.{◌≡◌, ◌<◌, ◌∷◌, ℕ, Some, Ok, length, option_map, find, position, slice_get, Err, IfOk, IfErr, IfSome};
ghost use Rattle.std.specs.Option.{ok_or};
ghost use Rattle.knx_base.specs.declared.cause.Cause.TheVariants as cause;
ghost use Rattle.text_lines.specs.Lines.{line_of};
ghost use Rattle.key_tables.specs.Text.{line_says};
ghost use Rattle.script_text.specs.Lists.{row_read, IsSaid};
ghost use Rattle.script_text.specs.Parts.{same_name};
ghost use Rattle.script_text.specs.Said.{is_start, stage_rank};
ghost use Rattle.script_text.specs.Reading.{in_order, node_named, place_named, head_said, head_again, named, role_said, group_said, tool_said, node_said, object_said};

use crate::fault::Refusal;
use crate::line_words::{five_words, one_word};
use crate::lists::Lists;
use crate::said::{NodeLine, ObjectLine, Said, Stage};
use crate::words::{
    read_address, read_flags, read_name, read_number48, read_size, read_sized_value,
};
use group_objects::ObjectRow;
use key_tables::{Row, read_group, read_line, three_words, two_words};
use knx_base::Cause;
use text_lines::Words;

impl Stage {
    pub(crate) fn rank(self) -> u8
        ensures { result ≡ stage_rank self }
    {
        match self {
            Stage::Start => 0,
            Stage::Rows => 1,
            Stage::Nodes => 2,
            Stage::Marks => 3,
            Stage::Events => 4,
        }
    }

    pub(crate) fn is_start(self) -> bool
        ensures { result ≡ is_start self }
    {
        matches!(self, Stage::Start)
    }
}

impl Lists {
    pub(crate) fn in_order(&self, stage: Stage) -> Result<(), Refusal>
        ensures { result ≡ in_order self.now stage }
    {
        if self.stage.rank() > stage.rank() {
            Err(Refusal::Order)
        } else {
            Ok(())
        }
    }

    pub(crate) fn place(&self, name: &str) -> Result<usize, Cause>
        ensures place { result ≡ place_named self.now name.now }
        ensures in_range { IfOk result (λ place. place < length self.now.nodes) }
    {
        place_of(&self.nodes, name).ok_or(Cause::Name)
    }

    // The node of a name, and its place.
    pub(crate) fn placed(&self, name: &str) -> Result<(usize, NodeLine), Cause>
        ensures node { IfOk result (λ found. node_named self.now name.now ≡ Ok found.1) }
        ensures none { IfErr result (λ why. node_named self.now name.now ≡ Err why) }
        ensures place { IfOk result (λ found. slice_get self.now.nodes found.0 ≡ Some found.1) }
    {
        match placed_in(&self.nodes, name) {
            Ok(found) => Ok(found),
            Err(cause) => Err(cause),
        }
    }

    pub(crate) fn node(&self, name: &str) -> Result<NodeLine, Cause>
        ensures { result ≡ node_named self.now name.now }
    {
        node_of(&self.nodes, name).ok_or(Cause::Name)
    }
}

fn placed_in(nodes: &[NodeLine], name: &str) -> Result<(usize, NodeLine), Cause>
    ensures node { IfOk result (λ found. ok_or (find (λ node. same_name name.now node.name) nodes.now) cause.Name
        ≡ Ok found.1) }
    ensures none { IfErr result (λ why. ok_or (find (λ node. same_name name.now node.name) nodes.now) cause.Name
        ≡ Err why) }
    ensures place { IfOk result (λ found. slice_get nodes.now found.0 ≡ Some found.1) }
{
    match place_of(nodes, name) {
        Some(place) => Ok((place, nodes[place])),
        None => Err(Cause::Name),
    }
}

fn place_of(nodes: &[NodeLine], name: &str) -> Option<usize>
    ensures place { result ≡ position (λ node. same_name name.now node.name) nodes.now }
    ensures in_range { IfSome result (λ place. place < length nodes.now) }
{
    nodes.iter().position(|node| is_named(node, name))
}

fn node_of(nodes: &[NodeLine], name: &str) -> Option<NodeLine>
    ensures { result ≡ find (λ node. same_name name.now node.name) nodes.now }
{
    Some(*find_node(nodes, name)?)
}

fn find_node<'a>(nodes: &'a [NodeLine], name: &str) -> Option<&'a NodeLine>
    ensures { option_map (λ node. node.now) result ≡ find (λ node. same_name name.now node.name) nodes.now }
{
    nodes.iter().find(|node| is_named(node, name))
}

fn is_named(node: &NodeLine, name: &str) -> bool
    ensures { result ≡ same_name name.now node.now.name }
{
    name.as_bytes() == node.name.as_bytes()
}

pub(crate) fn read_head(words: &mut Words<'_>) -> Result<Said, Refusal>
    ensures { result ≡ head_said words.old }
{
    match (words.next(), words.next(), words.next()) {
        (Some("knx-script"), Some("1"), None) => Ok(Said::Head),
        _ => Err(Refusal::Cause(Cause::Words)),
    }
}

pub(crate) fn refuse_head(words: &mut Words<'_>) -> Result<Said, Refusal>
    ensures { result ≡ head_again words.old }
{
    one_word(words)?;
    Err(Refusal::Order)
}

#[tactic(auto, using(crate::proofs::RowTexts::row_from))]
pub(crate) fn read_group_line(
    lists: &Lists,
    line: &[u8],
    kind: &str,
    words: &mut Words<'_>,
) -> Result<Said, Refusal>
    requires line { line_of line.now ≡ Ok (Some (kind.now ∷ words.old)) }
    ensures said { result ≡ group_said lists.now kind.now words.old }
    ensures ranges { IfOk result (IsSaid (length lists.now.nodes)) }
{
    three_words(words)?;
    read_row(lists, line, false)
}

#[tactic(auto, using(crate::proofs::RowTexts::row_from))]
pub(crate) fn read_tool_line(
    lists: &Lists,
    line: &[u8],
    kind: &str,
    words: &mut Words<'_>,
) -> Result<Said, Refusal>
    requires line { line_of line.now ≡ Ok (Some (kind.now ∷ words.old)) }
    ensures said { result ≡ tool_said lists.now kind.now words.old }
    ensures ranges { IfOk result (IsSaid (length lists.now.nodes)) }
{
    two_words(words)?;
    read_row(lists, line, false)
}

#[tactic(auto, using(crate::proofs::RowTexts::row_from))]
pub(crate) fn read_role_line(
    lists: &Lists,
    line: &[u8],
    kind: &str,
    words: &mut Words<'_>,
) -> Result<Said, Refusal>
    requires line { line_of line.now ≡ Ok (Some (kind.now ∷ words.old)) }
    ensures said { result ≡ role_said lists.now kind.now words.old }
    ensures ranges { IfOk result (IsSaid (length lists.now.nodes)) }
{
    let (_, sender, _) = three_words(words)?;
    read_row(lists, line, sender == "any")
}

// The row that a tables file has from the line, which is not of any sender.
fn read_row(lists: &Lists, line: &[u8], any: bool) -> Result<Said, Refusal>
    ensures said { result ≡ row_read lists.now any (line_says line.now) }
    ensures ranges { IfOk result (IsSaid (length lists.now.nodes)) }
{
    lists.in_order(Stage::Rows)?;
    match read_line(line) {
        Ok(Some(row)) => named(row),
        Err(Cause::Role) if any => Err(Refusal::Cause(Cause::Any)),
        Err(cause) => Err(Refusal::Cause(cause)),
        Ok(None) => Err(Refusal::Cause(Cause::Words)),
    }
}

fn named(row: Row) -> Result<Said, Refusal>
    ensures said { result ≡ named row }
    ensures ranges { (nodes : ℕ) → IfOk result (IsSaid nodes) }
{
    match row {
        Row::Role { sender: None, .. } => Err(Refusal::Cause(Cause::Any)),
        _ => Ok(Said::Row(row)),
    }
}

pub(crate) fn read_node(lists: &Lists, number: u64, words: &mut Words<'_>) -> Result<Said, Refusal>
    ensures said { result ≡ node_said lists.now number words.old }
    ensures ranges { IfOk result (IsSaid (length lists.now.nodes)) }
{
    let (name, address, next) = three_words(words)?;
    lists.in_order(Stage::Nodes)?;
    Ok(Said::Node(NodeLine {
        line: number,
        name: read_name(name)?,
        address: read_address(address)?,
        next: read_number48(next, 1)?,
    }))
}

pub(crate) fn read_object(lists: &Lists, words: &mut Words<'_>) -> Result<Said, Refusal>
    ensures said { result ≡ object_said lists.now words.old }
    ensures ranges { IfOk result (IsSaid (length lists.now.nodes)) }
{
    let ((name, group), flags, size, value) = five_words(words)?;
    lists.in_order(Stage::Nodes)?;
    let node = lists.node(name)?;
    let group = read_group(group)?;
    let flags = read_flags(flags)?;
    let size = read_size(size)?;
    let value = read_sized_value(value, size)?;
    Ok(Said::Object(ObjectLine {
        node: node.address,
        row: ObjectRow {
            group,
            flags,
            value,
        },
    }))
}
