// Going inside blocks and actions, where more is visible.
ghost use Rattle.std.specs.Prelude.{◌≡◌, [], ◌∷◌, map, option_map, OnOk};
ghost use Rattle.std.specs.List.{flat_map};
ghost use Rattle.px_syntax.specs.Block.{block_of, branch_of, guarded_of, item_data, variable_data, else_ifs_in_turn, else_of};
ghost use Rattle.px_syntax.specs.BlockFaults.{visible_as, visible_in, inside_block, inside_list, inside_action, inside_if, inside_for, guarded_child, else_child};
ghost use Rattle.px_syntax.specs.Scope.{head_of, inside};
ghost use Rattle.px_check.specs.Nodes.{head_data};
ghost use Rattle.px_check.specs.Scope.{with_variables};

use crate::branches::if_children;
use crate::heads::{children_of, head_of, is_command_block, one_child};
use crate::nodes::{NodeHead, OpenNode};
use crate::scope::{Scope, VariableType};
use crate::types::named_type;
use px_syntax::{Block, Branch, Guarded, Identifier, Item, ValueType, Variable};
use px_value::NoMemory;
use std::alloc::Global;

// The variable of a `for`.
const LOOP_VARIABLE: VariableType = VariableType {
    of_type: ValueType::Integer,
    is_array: false,
};

impl<'a> Scope<'a> {
    // Makes the variables of items visible. Of two of one name the first is nearest.
    fn declare_items(&mut self, alloc: Global, items: &[Item]) -> Result<(), NoMemory>
        ensures { OnOk result (self.new ≡ with_variables (flat_map visible_in (map item_data items.now)) self.old) }
    {
        let mut rest = items;
        while let Some((item, others)) = rest.split_last() {
            self.declare_item(alloc, item)?;
            rest = others;
        }
        Ok(())
    }

    fn declare_item(&mut self, alloc: Global, item: &Item) -> Result<(), NoMemory>
        ensures { OnOk result (self.new ≡ with_variables (visible_in (item_data item.now)) self.old) }
    {
        match item {
            Item::Variables { of_type, variables } => {
                self.declare_variables(alloc, named_type(*of_type), variables)
            }
            Item::Condition { .. } | Item::Priority { .. } => Ok(()),
        }
    }

    fn declare_variables(
        &mut self,
        alloc: Global,
        of_type: ValueType,
        variables: &[Variable],
    ) -> Result<(), NoMemory>
        ensures { OnOk result (self.new
            ≡ with_variables (map (visible_as of_type) (map variable_data variables.now)) self.old) }
    {
        let mut rest = variables;
        while let Some((variable, others)) = rest.split_last() {
            let kind = VariableType {
                of_type,
                is_array: variable.size.is_some(),
            };
            self.declare(alloc, &variable.name.name, kind)?;
            rest = others;
        }
        Ok(())
    }

    // Goes inside a node with this label and these children, which declares no variables.
    fn enter_node(
        &mut self,
        alloc: Global,
        label: &Option<Identifier>,
        is_command: bool,
        children: Vec<NodeHead>,
    ) -> Result<(), NoMemory>
        ensures { OnOk result (self.new ≡ inside self.old
            (record { head = head_of label.now is_command; children = map head_data children.items }) []) }
    {
        let node = OpenNode::new(alloc, head_of(alloc, label, is_command)?, children)?;
        self.enter(alloc, node)
    }

    /// Goes inside a block.
    pub fn enter_block(
        &mut self,
        alloc: Global,
        label: &Option<Identifier>,
        block: &Block,
    ) -> Result<(), NoMemory>
        ensures { OnOk result (self.new ≡ inside_block self.old label.now (block_of block.now)) }
    {
        let children = children_of(alloc, &block.actions)?;
        self.enter_node(alloc, label, is_command_block(block), children)?;
        self.declare_items(alloc, &block.items)
    }

    /// Goes inside a simple action, unless it is one node with its block.
    pub fn enter_action(
        &mut self,
        alloc: Global,
        is_one_node: bool,
        label: &Option<Identifier>,
        is_command: bool,
    ) -> Result<(), NoMemory>
        ensures { OnOk result (self.new ≡ inside_action self.old is_one_node label.now is_command) }
    {
        if is_one_node {
            return Ok(());
        }
        self.enter_node(alloc, label, is_command, Vec::new(alloc))
    }

    /// Goes inside the first `if` of a chain.
    pub fn enter_if(
        &mut self,
        alloc: Global,
        label: &Option<Identifier>,
        first: &Guarded,
        others: &[Guarded],
        otherwise: &Option<Branch>,
    ) -> Result<(), NoMemory>
        ensures { OnOk result (self.new ≡ inside_if self.old label.now (guarded_of first.now)
            (else_ifs_in_turn (map guarded_of others.now))
            (else_child (else_of (option_map branch_of otherwise.now)))) }
    {
        let children = if_children(alloc, first, others, otherwise)?;
        self.enter_node(alloc, label, false, children)
    }

    /// Goes inside a `while`.
    pub fn enter_while(
        &mut self,
        alloc: Global,
        label: &Option<Identifier>,
        guarded: &Guarded,
    ) -> Result<(), NoMemory>
        ensures { OnOk result (self.new
            ≡ inside_list self.old label.now (guarded_child (guarded_of guarded.now)) []) }
    {
        let children = one_child(alloc, &guarded.branch)?;
        self.enter_node(alloc, label, false, children)
    }

    /// Goes inside a `for`.
    pub fn enter_for(
        &mut self,
        alloc: Global,
        label: &Option<Identifier>,
        variable: &Identifier,
        branch: &Branch,
    ) -> Result<(), NoMemory>
        ensures { OnOk result (self.new
            ≡ inside_for self.old label.now variable.now (branch_of branch.now)) }
    {
        let children = one_child(alloc, branch)?;
        self.enter_node(alloc, label, false, children)?;
        self.declare(alloc, &variable.name, LOOP_VARIABLE)
    }
}
