// The machine as it is lent: memory, page table and vCPU sheet as one struct, whose sizes are right by its type. Each of its methods is one equation with
// the definition of `rules` that it carries out, on the machine whole: launch, Remap and Delete are made of them. Nothing is assumed.
#![tactic(auto)]

pub mod held;
pub mod reads;
pub mod writes;
