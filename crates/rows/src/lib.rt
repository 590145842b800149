// The rows of document 01's "Sixteen pages", settled by the checker: specs/Table.antt has them, specs/Statement.antt says that
// every one holds. There is no code here.
#![tactic(auto)]
