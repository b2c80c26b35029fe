//! Three of the programs of `samples/`, and what `pairs` and `plan` are to write of them, as people read it from the programs.

pub const GRAPH_SHARES: &str =
    "// Nodes hand shares of what they have to their neighbours, and a walk goes over all that can be reached.
class Node {
public:
  bool seen;
  long value;
  long degree;
  long gained;
  long visits;
  Node *next[3];
  void start(long v) {
    value = v;
  }
  void link(Node *n) {
    next[degree] = n;
    degree++;
  }
  // Adding changes places with adding, and no operation below writes value, degree or next.
  void gain(long v) {
    gained += v;
  }
  void share() {
    for (long i = 0; i < degree; i++) next[i]->gain(value / 3);
  }
  // The first visit walks on, whichever it is.
  void visit(long p) {
    visits++;
    gained = gained + p;
    if (!seen) {
      seen = true;
      for (long i = 0; i < degree; i++) next[i]->visit(value);
    }
  }
  // What is handed on is gained, which others change: this one stays serial.
  void pass() {
    if (next[0] != nullptr) next[0]->gain(gained);
  }
};
class Graph {
public:
  Node *at[8];
  void make() {
    for (long i = 0; i < 8; i++) {
      at[i] = new Node();
      at[i]->start(3 * i + 1);
    }
  }
  void connect(long i) {
    at[i]->link(at[(i + 1) % 8]);
    at[i]->link(at[i * i % 8]);
    at[i]->link(at[(3 * i + 5) % 8]);
  }
  void share() {
    for (long i = 0; i < 8; i++) at[i]->share();
  }
};
int main() {
  Graph *g = new Graph();
  g->make();
  for (long i = 0; i < 8; i++) g->connect(i);
  g->share();
  g->at[0]->visit(1);
  for (long i = 0; i < 8; i++) g->at[i]->pass();
  print(g->at[5]->gained);
  return 0;
}
";

pub const OF_GRAPH_SHARES: &str =
    "pairs:extent Node::start$Node::start Node::start unproved FieldDiffers value$extent Node::link$Node::link Node::link unproved FieldDiffers next$extent Node::gain$Node::gain Node::gain commutes$extent Node::share$Node::gain Node::gain commutes$Node::gain Node::share commutes$Node::share Node::share commutes$extent Node::visit$Node::visit Node::visit commutes$extent Node::pass$Node::gain Node::gain commutes$Node::gain Node::pass unproved DemandsDiffer$Node::pass Node::pass commutes$extent Graph::make$Node::start Node::start unproved FieldDiffers value$Graph::make Graph::make unproved NotSeparable Graph::make 43 AccessAfterCall$extent Graph::connect$Node::link Node::link unproved FieldDiffers next$Graph::connect Graph::connect commutes$extent Graph::share$Node::gain Node::gain commutes$Node::gain Node::share commutes$Node::share Node::share commutes$Graph::share Graph::share commutes$loop 22$Node::gain Node::gain commutes$loop 30$Node::visit Node::visit commutes$loop 53$Node::gain Node::gain commutes$Node::gain Node::share commutes$Node::share Node::share commutes$loop 59$Node::link Node::link unproved FieldDiffers next$Graph::connect Graph::connect commutes$loop 62$Node::gain Node::gain commutes$Node::gain Node::pass unproved DemandsDiffer$Node::pass Node::pass commutes$
plan:op Node::start serial$op Node::link serial$op Node::gain serial$op Node::share parallel$op Node::visit parallel$op Node::pass serial$op Graph::make serial$op Graph::connect serial$op Graph::share parallel$loop 22 parallel$loop 30 parallel$loop 53 parallel$loop 59 serial$loop 62 serial$";

pub const SEARCH_TREE: &str =
    "// A search tree is grown key by key, and then takes many amounts at once.
class Tree {
public:
  long key;
  long sum;
  long below;
  long factor;
  Tree *left;
  Tree *right;
  void start(long k) {
    key = k;
    factor = 1;
  }
  // New nodes have numbers in the order of their creation: growing is serial.
  void grow(long k) {
    if (k < key) {
      if (left == nullptr) {
        left = new Tree();
        left->start(k);
      } else left->grow(k);
    } else {
      if (right == nullptr) {
        right = new Tree();
        right->start(k);
      } else right->grow(k);
    }
  }
  // Once it is grown, keys and branches are constants, and an amount finds its way beside others.
  void add(long k, long amount) {
    below += amount;
    if (k == key) sum += amount;
    if (k < key && left != nullptr) left->add(k, amount);
    if (k > key && right != nullptr) right->add(k, amount);
  }
  void scale(long by) {
    factor *= by;
    if (left != nullptr) left->scale(by);
    if (right != nullptr) right->scale(by);
  }
  // Adding and multiplying don't change places in one field.
  void mix(long by) {
    below = below * by;
    add(key, by);
  }
  long total() {
    long t = sum * factor;
    if (left != nullptr) t += left->total();
    if (right != nullptr) t += right->total();
    return t;
  }
};
int main() {
  Tree *root = new Tree();
  root->start(50);
  for (long i = 1; i < 40; i++) root->grow(37 * i % 101);
  for (long i = 0; i < 400; i++) root->add(37 * (i % 40) % 101, i);
  root->scale(3);
  root->mix(2);
  print(root->total());
  print(root->below);
  return 0;
}
";

pub const OF_SEARCH_TREE: &str =
    "pairs:extent Tree::start$Tree::start Tree::start unproved FieldDiffers key$extent Tree::grow$Tree::start Tree::start unproved FieldDiffers key$Tree::start Tree::grow unproved NotSeparable Tree::grow 18 Creates$Tree::grow Tree::grow unproved NotSeparable Tree::grow 18 Creates$extent Tree::add$Tree::add Tree::add commutes$extent Tree::scale$Tree::scale Tree::scale commutes$extent Tree::mix$Tree::add Tree::add commutes$Tree::add Tree::mix unproved FieldDiffers below$Tree::mix Tree::mix commutes$loop 55$Tree::start Tree::start unproved FieldDiffers key$Tree::start Tree::grow unproved NotSeparable Tree::grow 18 Creates$Tree::grow Tree::grow unproved NotSeparable Tree::grow 18 Creates$loop 56$Tree::add Tree::add commutes$
plan:op Tree::start serial$op Tree::grow serial$op Tree::add parallel$op Tree::scale parallel$op Tree::mix serial$loop 55 serial$loop 56 parallel$";

pub const TABLE_OF_SUMS: &str =
    "// Rows file their amounts in a table, at keys that may be the same for many rows.
class Table {
public:
  long count[16];
  long total[16];
  long greatest;
  bool used;
  // Sums at items commute whatever the keys are, and so does putting one and the same literal.
  void add(long key, long amount) {
    count[key] += 1;
    total[key] = total[key] + amount;
    used = true;
  }
  // So is a greatest value: it is the same in both orders.
  void offer(long amount) {
    if (greatest < amount) greatest = amount;
  }
  long mean(long key) {
    if (count[key] == 0) return 0;
    return total[key] / count[key];
  }
};
class Row {
public:
  long key;
  long amount;
  Table *table;
  void set(long k, long a, Table *t) {
    key = k;
    amount = a;
    table = t;
  }
  void file(long price) {
    table->add(key % 16, amount * price);
  }
  void compare(long price) {
    table->offer(amount * price);
  }
};
class Sheet {
public:
  Row *rows[100];
  void make() {
    for (long i = 0; i < 100; i++) rows[i] = new Row();
  }
  void fill(Table *t) {
    for (long i = 0; i < 100; i++) rows[i]->set(7 * i % 23, i, t);
  }
  void file(long price) {
    for (long i = 0; i < 100; i++) rows[i]->file(price);
  }
};
int main() {
  Table *t = new Table();
  Sheet *s = new Sheet();
  s->make();
  s->fill(t);
  s->file(3);
  for (long i = 0; i < 100; i++) s->rows[i]->compare(2);
  for (long i = 0; i < 100; i++) s->rows[i]->file(i);
  for (long k = 0; k < 16; k++) print(t->mean(k));
  print(t->greatest);
  return 0;
}
";

pub const OF_TABLE_OF_SUMS: &str =
    "pairs:extent Table::add$Table::add Table::add commutes$extent Table::offer$Table::offer Table::offer commutes$extent Row::set$Row::set Row::set unproved FieldDiffers key$extent Row::file$Table::add Table::add commutes$Row::file Row::file commutes$extent Row::compare$Table::offer Table::offer commutes$Row::compare Row::compare commutes$extent Sheet::make$Sheet::make Sheet::make unproved NotSeparable Sheet::make 44 Creates$extent Sheet::fill$Row::set Row::set unproved FieldDiffers key$Sheet::fill Sheet::fill commutes$extent Sheet::file$Table::add Table::add commutes$Row::file Row::file commutes$Sheet::file Sheet::file commutes$loop 47$Row::set Row::set unproved FieldDiffers key$loop 50$Table::add Table::add commutes$Row::file Row::file commutes$loop 59$Table::offer Table::offer commutes$Row::compare Row::compare commutes$loop 60$Table::add Table::add commutes$Row::file Row::file commutes$
plan:op Table::add serial$op Table::offer serial$op Row::set serial$op Row::file parallel$op Row::compare parallel$op Sheet::make serial$op Sheet::fill serial$op Sheet::file parallel$loop 47 serial$loop 50 parallel$loop 59 parallel$loop 60 parallel$";
